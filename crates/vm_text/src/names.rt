// The declared objects, found by their names.
ghost use Rattle.std.specs.Prelude.{◌≡◌, ◌∷◌, [], length, OnOk, OnErr};
ghost use Rattle.vm_text.specs.Forms.{declared_at};

use std::alloc::Global;
use std::collections::BTreeMap;
use std::marker::Model;
use vm_base::NoMemory;
use vm_model::{Declarations, Declared};

/// The declared objects. Contracts see the list of them, the newest first.
#[derive(Drop)]
pub struct Names<'a> {
    objects: Declarations,
    places: BTreeMap<&'a [u8], u32>,
}

impl<'a> Model for Names<'a> {
    ghost use Rattle.std.specs.Prelude.{List, ℕ, ◌≡◌, length};
    ghost use Rattle.std.specs.BTreeMap.{get_by};
    ghost use Rattle.std.specs.Cmp.Lexicographic.{slice_cmp};
    ghost use Rattle.std.specs.Ordering.{nat_cmp};
    ghost use Rattle.vm_model.specs.declared.script.Declared.{Declared};
    ghost use Rattle.vm_text.specs.Forms.{declared_at};

    ghost Value = { List Declared };

    ghost view = { λ n. n.objects.items };

    ghost invariant = { λ n. (name : List ℕ) → get_by (λ key. slice_cmp nat_cmp name key.now) n.places ≡ declared_at name n.objects.items };
}

impl<'a> Names<'a> {
    /// Nothing is declared yet.
    pub fn new(alloc: Global) -> Names<'a>
        ensures { result ≡ [] }
    {
        Names {
            objects: Declarations::new(alloc),
            places: BTreeMap::new(alloc),
        }
    }

    /// The number of the object of that name.
    pub fn find(&self, name: &[u8]) -> Option<u32>
        ensures { result ≡ declared_at name.now self.now }
    {
        self.places.get(name).copied()
    }

    /// Declares the next object, by the text of its name.
    pub fn declare(&mut self, text: &'a [u8], object: Declared) -> Result<(), NoMemory>
        requires { object.name ≡ text.now }
        ensures ok { OnOk result (self.new ≡ object ∷ self.old) }
        ensures err { OnErr result (self.new ≡ self.old) }
    {
        self.objects.reserve(1)?;
        let place = self.objects.len();
        self.places.insert(text, place)?;
        self.objects.push(object)?;
        Ok(())
    }

    /// The list of the objects.
    pub fn into_objects(self) -> Declarations
        ensures { result.items ≡ self.entry }
    {
        self.objects
    }

    /// The number of objects.
    pub fn len(&self) -> u32
        ensures { result ≡ length self.now }
    {
        self.objects.len()
    }
}
