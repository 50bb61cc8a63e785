// The names that an expression can use, each with its type.
ghost use Rattle.std.specs.Prelude.{◌≡◌, ◌≤◌, ◌∷◌, [], ◌++◌, length, slice_get, option_map, IfOk, OnOk, OnErr, is_none, if◌then◌else◌};
ghost use Rattle.expr_check.specs.Names.{place_of, latest_of};

use fx_expr::{Txt, Ty};
use indexmap::IndexMap;
use std::alloc::{AllocError, Global};
use std::marker::Model;

// The most names of a list: each has its place in 32 bits.
const MAX_NAMES: usize = 0xffff_ffff;

/// Declared names with their types, in order, no name twice. Contracts see them as that list.
#[derive(Drop)]
pub struct Declared {
    types: IndexMap<String, Ty>,
}

impl Model for Declared {
    ghost use Rattle.std.specs.Prelude.{ℕ, List, length, ◌≤◌};
    ghost use Rattle.fx_expr.specs.declared.values.Ty.{Ty as AnyType};
    ghost use Rattle.expr_check.specs.NamesView.{names_in};

    ghost Value = { List (List ℕ × AnyType) };

    ghost view = { λ d. names_in d.types.entries };

    ghost invariant = { λ d. length d.types.entries ≤ 4294967295 };
}

impl Declared {
    /// No names.
    pub fn new(alloc: Global) -> Declared
        ensures { result ≡ [] }
    {
        Declared {
            types: IndexMap::new(alloc),
        }
    }

    /// Adds a name with its type at the end, where it isn't there yet. False, and nothing added, where it
    /// is. After want of memory, or where there are 2^32 - 1 names, they are as before.
    pub fn add(&mut self, alloc: Global, name: &Txt, ty: Ty) -> Result<bool, AllocError>
        ensures added { IfOk result (λ b. b ≡ is_none (place_of self.old name.now)) }
        ensures names { IfOk result (λ b. self.new ≡ (if b then self.old ++ (name.now, ty) ∷ [] else self.old)) }
        ensures err { OnErr result (self.new ≡ self.old) }
    {
        if self.types.contains_key(name.get()) {
            return Ok(false);
        }
        if self.types.len() >= MAX_NAMES {
            return Err(AllocError);
        }
        let name = String::from_str(alloc, name.get())?;
        self.types.insert(name, ty)?;
        Ok(true)
    }

    /// How many names there are: at most 2^32 - 1.
    pub fn len(&self) -> usize
        ensures count { result ≡ length self.now }
        ensures places { result ≤ 4294967295 }
    {
        self.types.len()
    }

    /// The name at a place, counted from 0, and its type.
    pub fn get(&self, place: usize) -> Option<(&str, Ty)>
        ensures { option_map (λ d. (d.0.now, d.1)) result ≡ slice_get self.now place }
    {
        let (name, ty) = self.types.get_index(place)?;
        Some((name.as_str(), *ty))
    }

    /// The names with their types, in order, copied.
    pub fn to_list(&self, alloc: Global) -> Result<Vec<(Txt, Ty)>, AllocError>
        ensures { IfOk result (λ names. names.items ≡ self.now) }
    {
        let count = self.len();
        let mut names = Vec::with_capacity(alloc, count)?;
        for i in 0..count {
            if let Some((name, ty)) = self.get(i) {
                let name = Txt::of(String::from_str(alloc, name)?);
                names.push((name, ty))?;
            }
        }
        Ok(names)
    }

    /// The place of a name, counted from 0, and its type.
    pub fn find(&self, name: &Txt) -> Option<(u32, Ty)>
        ensures { result ≡ place_of self.now name.now }
    {
        let (place, _, ty) = self.types.get_full(name.get())?;
        Some((place as u32, *ty))
    }
}

/// The variables of the loops around a template, with their types, from the outermost loop on.
#[derive(Drop)]
pub struct LoopVariables {
    items: Vec<(Txt, Ty)>,
}

impl Model for LoopVariables {
    ghost use Rattle.std.specs.Prelude.{ℕ, List, length, ◌≤◌};
    ghost use Rattle.fx_expr.specs.declared.values.Ty.{Ty as AnyType};

    ghost Value = { List (List ℕ × AnyType) };

    ghost view = { λ v. v.items.items };

    ghost invariant = { λ v. length v.items.items ≤ 4294967295 };
}

impl LoopVariables {
    /// No variables.
    pub fn new(alloc: Global) -> LoopVariables
        ensures { result ≡ [] }
    {
        LoopVariables {
            items: Vec::new(alloc),
        }
    }

    /// Adds the variable of a loop inside. After want of memory, or where there are 2^32 - 1, they are as
    /// before.
    pub fn push(&mut self, name: &Txt, ty: Ty) -> Result<(), AllocError>
        ensures ok { OnOk result (self.new ≡ self.old ++ (name.now, ty) ∷ []) }
        ensures err { OnErr result (self.new ≡ self.old) }
    {
        if self.items.len() >= MAX_NAMES {
            return Err(AllocError);
        }
        self.items.push((name.clone()?, ty))?;
        Ok(())
    }

    /// The same with the variable of a loop inside, or want of memory, also where there are 2^32 - 1.
    pub fn with(&self, alloc: Global, name: &Txt, ty: Ty) -> Result<LoopVariables, AllocError>
        ensures { IfOk result (λ v. v ≡ self.now ++ (name.now, ty) ∷ []) }
    {
        let mut vars = LoopVariables::new(alloc);
        for i in 0..self.items.len() {
            let variable = &self.items[i];
            vars.push(&variable.0, variable.1)?;
        }
        vars.push(name, ty)?;
        Ok(vars)
    }

    /// How many variables there are.
    pub fn len(&self) -> u32
        ensures { result ≡ length self.now }
    {
        self.items.len() as u32
    }

    /// The place of a variable, counted from the outermost loop, and its type. An inner loop's variable
    /// hides an outer one's of the same name.
    pub fn find(&self, name: &Txt) -> Option<(u32, Ty)>
        ensures { result ≡ latest_of self.now name.now }
    {
        latest(self.items.as_slice(), name)
    }
}

// The place of the last variable of a name, and its type.
fn latest(variables: &[(Txt, Ty)], name: &Txt) -> Option<(u32, Ty)>
    requires { length variables.now ≤ 4294967295 }
    ensures { result ≡ latest_of variables.now name.now }
{
    let mut i = variables.len();
    while i > 0 {
        i -= 1;
        let variable = &variables[i];
        if *name == variable.0 {
            return Some((i as u32, variable.1));
        }
    }
    None
}

/// What an expression can name: fields, props, loop variables and inherited names, and whether it sees
/// the event of a gesture.
#[derive(Clone, Copy)]
pub struct Names<'a> {
    pub fields: &'a Declared,
    pub props: &'a Declared,
    pub vars: &'a LoopVariables,
    pub inherited: &'a Declared,
    pub event: bool,
}
