//! What names mean.

ghost use Rattle.name_scopes.specs.Latest.{latest_in};
ghost use Rattle.name_scopes.specs.Scopes as scopes;
ghost use Rattle.std.specs.HashMap as hash;
ghost use Rattle.std.specs.Prelude.{◌≡◌, ℕ, Option, OnOk, cond, length, nat_eq, slice_get};
ghost use Rattle.std.specs.Option.{IsSome, option_copied};

use c_ast::Ty;
use cv_word::NoMemory;
use std::alloc::Global;
use std::collections::HashMap;
use std::marker::Model;

/// What a name stands for.
#[derive(Clone, Copy)]
pub enum Meaning {
    /// A parameter, or a local behind the parameters.
    Local { number: u32 },
    Global { number: u32 },
    /// A function by its position, prototypes behind all definitions.
    Function { number: u32 },
    Gate { number: u8 },
    Structure { number: u32 },
    Member { number: u32 },
}

/// A name that is declared. Without a type where a rule is broken in its declaration.
#[derive(Drop)]
pub struct Entry {
    pub name: u32,
    pub meaning: Meaning,
    pub ty: Option<Ty>,
}

/// An entry, and the position of the entry of its name that it hides.
#[derive(Drop)]
struct Declared {
    entry: Entry,
    hides: Option<usize>,
}

/// What is declared, the latest last. A name is found without a walk over the entries, and memory is in
/// proportion to their number.
#[derive(Drop)]
pub struct Scope {
    declared: Vec<Declared>,
    /// The position of the latest entry of each name.
    latest: HashMap<u32, usize>,
}

impl Model for Scope {
    ghost use Rattle.std.specs.Prelude.{List};
    ghost use Rattle.std.specs.Coded.{codes};
    ghost use Rattle.c_ast.specs.contracts.qualifiers.Ty as ty;
    ghost use Rattle.name_scopes.specs.declared.scopes.Entry.{Entry};

    ghost Value = { List Entry };

    ghost coded = { Prim.hlevel (codes, ty.the_row.coded) };

    ghost use Rattle.std.specs.HashMap as hash;
    ghost use Rattle.std.specs.Prelude.{nat_eq};
    ghost use Rattle.name_scopes.specs.Latest.{IsIndexed, entries_of};

    ghost view = { λ s. entries_of s.declared.items };

    ghost invariant = { λ s. IsIndexed s.declared.items (hash.get nat_eq s.latest) };
}

impl Scope {
    ghost use Rattle.std.specs.Prelude.{[], take};

    /// Takes no memory.
    pub fn new(alloc: Global) -> Scope
        ensures { result ≡ [] }
    {
        Scope {
            declared: Vec::new(alloc),
            latest: HashMap::new(alloc),
        }
    }

    /// How many names are declared.
    pub fn len(&self) -> usize
        ensures { result ≡ length self.now }
    {
        self.declared.len()
    }

    /// The entry at a position, in the order of declaration.
    pub fn get(&self, at: usize) -> Option<&Entry>
        ensures { option_copied result ≡ slice_get self.now at }
    {
        match self.declared.get(at) {
            Some(declared) => Some(&declared.entry),
            None => None,
        }
    }

    /// What a name means.
    #[tactic(auto, using(crate::proofs::Latest::finding))]
    pub fn find(&self, name: u32) -> Option<&Entry>
        ensures { option_copied result ≡ scopes.meaning_in self.now name }
    {
        match self.latest(name) {
            Some(at) => Some(&self.declared[at].entry),
            None => None,
        }
    }

    /// Whether a name is declared where the scope was so long, or later.
    #[tactic(auto, using(crate::proofs::Latest::declared_since_at))]
    pub fn declares_since(&self, start: usize, name: u32) -> bool
        ensures { result ≡ scopes.is_declared_since start self.now name }
    {
        match self.latest(name) {
            Some(at) => start <= at,
            None => false,
        }
    }

    /// Whether a name is declared.
    #[tactic(auto, using(crate::proofs::Latest::declared_at))]
    pub fn declares(&self, name: u32) -> bool
        ensures { result ≡ scopes.is_declared self.now name }
    {
        self.latest(name).is_some()
    }

    /// One more name.
    pub fn declare(&mut self, name: u32, meaning: Meaning, ty: Option<Ty>) -> Result<(), NoMemory>
        ensures { OnOk result (self.new ≡ scopes.declare self.old name meaning ty) }
    {
        let entry = Entry { name, meaning, ty };
        let hides = self.latest(name);
        let at = self.declared.len();
        // With this room the insertion can't fail, which would leave an entry that isn't found.
        self.latest.reserve(1)?;
        self.declared.push(Declared { entry, hides })?;
        self.latest.insert(name, at)?;
        Ok(())
    }

    /// Forgets all but so many names.
    pub fn forget(&mut self, start: usize)
        ensures { self.new ≡ take start self.old }
    {
        while self.declared.len() > start {
            let at = self.declared.len() - 1;
            let last = &self.declared[at];
            put_back(&mut self.latest, last.entry.name, last.hides);
            self.declared.truncate(at);
        }
    }

    /// The position of a name's latest entry.
    fn latest(&self, name: u32) -> Option<usize>
        ensures { result ≡ latest_in self.now name }
    {
        self.latest.get(&name).copied()
    }
}

/// Puts back what a name's latest entry hid. That takes no memory, as the name is there.
fn put_back(latest: &mut HashMap<u32, usize>, name: u32, hides: Option<usize>)
    requires { IsSome (hash.get nat_eq latest.old name) }
    ensures { (other : ℕ) → hash.get nat_eq latest.new other ≡ cond (nat_eq name other) hides (hash.get nat_eq latest.old other) }
{
    match hides {
        Some(hidden) => {
            if let Some(position) = latest.get_mut(&name) {
                *position = hidden;
            }
        }
        None => {
            latest.remove(&name);
        }
    }
}
