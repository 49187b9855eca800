// The name of a declared object.
ghost use Rattle.std.specs.Prelude.{◌≡◌, ◌↔◌, IsSome, IfSome};
ghost use Rattle.std.specs.List.{list_all};
ghost use Rattle.vm_model.specs.Name.{IsName, is_lower, is_name_byte, is_name};

use std::marker::Model;

/// A name: 1 to 32 lower-case letters, digits and underscores, beginning with a letter.
#[derive(Clone, Copy)]
pub struct Name {
    bytes: [u8; 32],
    len: u8,
}

impl Model for Name {
    ghost use Rattle.std.specs.Prelude.{List, ℕ, take, ◌++◌, replicate, ◌-◌, length};
    ghost use Rattle.vm_model.specs.Name.{IsKept};

    ghost Value = { List ℕ };

    ghost view = { λ n. take n.len n.bytes };

    ghost invariant = { λ n. IsKept n.bytes n.len };

    ghost inverse = { λ l. record { bytes = l ++ replicate (32 - length l) 0; len = length l } };

    ghost use Rattle.std.proofs.Common.{ap, ◌∙◌};

    ghost inverse_ok = { λ a h. ap (λ z. record { bytes = z; len = length (take a.len a.bytes) }) h.padded ∙ ap (λ z. record { bytes = a.bytes; len = z }) h.whole };
}

fn is_lower(byte: u8) -> bool
    ensures { result ≡ is_lower byte }
{
    byte >= 97 && byte <= 122
}

fn is_name_byte(byte: u8) -> bool
    ensures { result ≡ is_name_byte byte }
{
    is_lower(byte) || (byte >= 48 && byte <= 57) || byte == 95
}

fn all_name_bytes(text: &[u8]) -> bool
    ensures { result ≡ list_all is_name_byte text.now }
{
    text.iter().all(|byte| is_name_byte(*byte))
}

fn is_name(text: &[u8]) -> bool
    ensures { result ≡ is_name text.now }
{
    if text.is_empty() {
        return false;
    }
    if text.len() > 32 {
        return false;
    }
    if !is_lower(text[0]) {
        return false;
    }
    all_name_bytes(text)
}

impl Name {
    /// The name of this text, if the text is one.
    pub fn new(text: &[u8]) -> Option<Name>
        ensures found { IsSome result ↔ IsName text.now }
        ensures same { IfSome result (λ name. name ≡ text.now) }
    {
        if !is_name(text) {
            return None;
        }
        let mut bytes = [0u8; 32];
        bytes[..text.len()].copy_from_slice(text);
        Some(Name {
            bytes,
            len: text.len() as u8,
        })
    }

    /// The text of the name.
    pub fn as_str(&self) -> &str
        ensures text { result.now ≡ self.now }
        ensures name { IsName result.now }
    {
        match str::from_utf8(&self.bytes[..self.len as usize]) {
            Ok(text) => text,
            Err(_) => "",
        }
    }
}
