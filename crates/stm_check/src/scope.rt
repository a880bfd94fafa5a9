//! Where names are looked up.

ghost use Rattle.std.specs.Prelude.{◌≡◌, ◌+◌, ◌<◌, ◌≤◌, ◌^◌, ◌∷◌, length, IfSome, Some, None, true};
ghost use Rattle.stm_terms.specs.Limits.{most_refs};
ghost use Rattle.stm_check.specs.Scopes.{innermost, names_of, scope, ScopeHasFewRefs, bit_of, HasBits, ScopeIsConsistent};

use stm_terms::kinds::Ty;

/// The locals, innermost first: each with its name, its type, its number, which counts from the outermost, and the bits of
/// the names from it outwards. Most names of variables have none of these bits, and so are looked up without a walk.
#[derive(Drop)]
pub enum Scope<'a> {
    Empty,
    Local {
        name: &'a str,
        kind: Ty,
        number: u32,
        bits: u64,
        outer: &'a Scope<'a>,
    },
}

/// How many locals there are.
pub fn count(locals: &Scope) -> u32
    // What is kept with each local is right, so the innermost has the highest number.
    requires kept { ScopeIsConsistent locals.now }
    requires room { length (scope locals.now) < 2 ^ 32 }
    ensures { result ≡ length (scope locals.now) }
{
    match locals {
        Scope::Empty => 0,
        Scope::Local { number, .. } => *number + 1,
    }
}

// Which of 64 bits a name has. Names of one letter have different ones.
#[tactic(auto, unfolding(crate::specs::Scopes::bit_of))]
fn bit_of(name: &str) -> u32
    ensures bit { result ≡ bit_of name.now }
    ensures few { result < 64 }
{
    match name.as_bytes() {
        [] => 0,
        [first, ..] => (*first as u32 + 9 * (name.len() % 64) as u32) % 64,
    }
}

// The bits of the locals.
fn bits(locals: &Scope) -> u64
    requires { ScopeIsConsistent locals.now }
    ensures { HasBits result (names_of (scope locals.now)) }
{
    match locals {
        Scope::Empty => 0,
        Scope::Local { bits, .. } => *bits,
    }
}

/// Bits that include those of the locals and that of one more name.
pub fn bits_with(locals: &Scope, name: &str) -> u64
    requires { ScopeIsConsistent locals.now }
    ensures { HasBits result (name.now ∷ names_of (scope locals.now)) }
{
    bits(locals) | 1 << bit_of(name)
}

// Whether the bit of a name is missing, so that no local has this name.
fn lacks(locals: &Scope, name: &str) -> bool
    requires { ScopeIsConsistent locals.now }
    ensures { result ≡ true → innermost name.now (scope locals.now) ≡ None }
{
    bits(locals) >> bit_of(name) & 1 == 0
}

// Walks to the innermost local of a name.
fn walk(locals: &Scope, name: &str) -> Option<(u32, Ty)>
    requires kept { ScopeIsConsistent locals.now }
    requires shallow { ScopeHasFewRefs (scope locals.now) }
    ensures found { result ≡ innermost name.now (scope locals.now) }
    ensures few { IfSome result (λ l. l.1.refs ≤ most_refs + 1) }
{
    match locals {
        Scope::Empty => None,
        Scope::Local {
            name: own,
            kind,
            number,
            outer,
            ..
        } => {
            if *own == name {
                Some((*number, *kind))
            } else {
                walk(outer, name)
            }
        }
    }
}

/// The innermost local of a name: its number, counted from the outermost, and its type.
pub fn find_local(locals: &Scope, name: &str) -> Option<(u32, Ty)>
    // What is kept with each local is right, so a name whose bit is missing is no local's.
    requires kept { ScopeIsConsistent locals.now }
    // By this, the type that is returned has few `TVar`s, too.
    requires shallow { ScopeHasFewRefs (scope locals.now) }
    ensures found { result ≡ innermost name.now (scope locals.now) }
    ensures few { IfSome result (λ l. l.1.refs ≤ most_refs + 1) }
{
    if lacks(locals, name) {
        None
    } else {
        walk(locals, name)
    }
}
