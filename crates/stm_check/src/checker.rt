//! What a check of trees works with. Its methods are in `expressions` and `actions`.

use crate::scope::Scope;
use std::alloc::Global;
use stm_store::Names;

/// A check of trees: where its memory comes from, and where it looks names up, which are the declared variables, the text
/// that names are spans of, and the locals in scope.
#[derive(Drop)]
pub struct Checker<'a> {
    pub alloc: Global,
    pub known: &'a Names,
    pub text: &'a str,
    pub locals: &'a Scope<'a>,
}
