// Whether two headers say the same, and whether one declares a wild object.
ghost use Rattle.std.specs.Prelude.{◌≡◌, ◌↔◌, ℕ, IsTrue, true, false};
ghost use Rattle.vm_legal.specs.Outside.{is_wild, is_wild_kind};
ghost use Rattle.vm_seen.specs.Headers.{SayTheSame};

use vm_base::ObjectKind;
use vm_model::{Counts, Declarations, Declared, Header};

fn same_counts(a: &Counts, b: &Counts) -> bool
    ensures { IsTrue result ↔ (a.now.items ≡ b.now.items) }
{
    if a.len() != b.len() {
        return false;
    }
    for i in 0..a.len() {
        if *a.at(i) != *b.at(i) {
            return false;
        }
    }
    true
}

fn same_declared(a: &Declared, b: &Declared) -> bool
    ensures { IsTrue result ↔ (a.now ≡ b.now) }
{
    a.name.as_str() == b.name.as_str() && a.kind == b.kind && a.pages == b.pages
}

fn same_declarations(a: &Declarations, b: &Declarations) -> bool
    ensures { IsTrue result ↔ (a.now.items ≡ b.now.items) }
{
    if a.len() != b.len() {
        return false;
    }
    for i in 0..a.len() {
        if !same_declared(a.at(i), b.at(i)) {
            return false;
        }
    }
    true
}

/// Whether two headers say the same.
pub fn same_header(a: &Header, b: &Header) -> bool
    ensures { IsTrue result ↔ SayTheSame a.now b.now }
{
    a.size == b.size
        && a.slots == b.slots
        && same_counts(&a.frames, &b.frames)
        && same_declarations(&a.objects, &b.objects)
}

fn is_wild(object: &Declared) -> bool
    ensures { result ≡ is_wild_kind object.now.kind }
{
    matches!(object.kind, ObjectKind::Wild)
}

/// Whether a declared object is the script's own.
pub fn has_wild(header: &Header) -> bool
    ensures none { result ≡ false → (object : ℕ) → is_wild header.now object ≡ false }
    ensures one { IsTrue result → (object : ℕ) × (is_wild header.now object ≡ true) }
{
    for i in 0..header.objects.len() {
        if is_wild(header.objects.at(i)) {
            return true;
        }
    }
    false
}
