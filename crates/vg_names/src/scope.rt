//! What names mean at a place of a body.

ghost use Rattle.std.specs.Prelude.{◌≡◌, None, IfOk, position};
ghost use Rattle.vg_pseudo.specs.Names.{named, first_place, last_function};
ghost use Rattle.vg_pseudo.specs.Resolve.{inside};
ghost use Rattle.std.specs.Str.{bytes_eq};
ghost use Rattle.vg_names.specs.Scopes.{meaning_view, scope_over};

use crate::last_names::LastNames;
use crate::names::Names;
use crate::registers::{Register, Registers};
use std::alloc::{AllocError, Global};
use std::marker::Model;
use vg_text::byte::is_text;

/// What a name means at a place of a body.
#[derive(Clone, Copy)]
pub(crate) enum Meaning<'a> {
    /// The variable of a FOR, by how many FORs lie between.
    Turn(usize),
    /// A register, with its number.
    Register(usize, &'a Register),
    /// A number variable, by its number.
    Variable(usize),
    Nothing,
}

/// What names mean at a place of a body: its registers and its number variables, the DEFINEs that
/// stand before, and the variables of the FORs around the place, innermost first.
#[derive(Drop)]
pub(crate) struct Scope<'a> {
    registers: &'a Registers,
    variables: &'a Names,
    functions: &'a LastNames,
    turns: Vec<&'a [u8]>,
}

impl<'a> Model for Scope<'a> {
    ghost use Rattle.std.specs.Prelude.{map};
    ghost use Rattle.vg_pseudo.specs.Names.{Scope};

    ghost Value = { Scope };

    ghost view = { λ s. record {
      registers = s.registers.now;
      variables = s.variables.now;
      turns = map (λ t. t.now) s.turns.items;
      functions = s.functions.now;
    } };
}

impl<'a> Scope<'a> {
    /// The names at a place outside of all FORs.
    pub(crate) fn new(
        alloc: Global,
        registers: &'a Registers,
        variables: &'a Names,
        functions: &'a LastNames,
    ) -> Scope<'a>
        ensures { result ≡ scope_over registers.now variables.now functions.now }
    {
        Scope {
            registers,
            variables,
            functions,
            turns: Vec::new(alloc),
        }
    }

    /// Inside a FOR over this name.
    pub(crate) fn inside(&self, alloc: Global, variable: &'a [u8]) -> Result<Scope<'a>, AllocError>
        ensures { IfOk result (λ s. s ≡ inside self.now variable.now) }
    {
        let mut turns = Vec::new(alloc);
        turns.push(variable)?;
        turns.extend_from_slice(self.turns.as_slice())?;
        Ok(Scope {
            registers: self.registers,
            variables: self.variables,
            functions: self.functions,
            turns,
        })
    }

    /// How many FORs lie between, where a FOR around has this variable.
    fn turn(&self, name: &[u8]) -> Option<usize>
        ensures { result ≡ first_place (λ m. bytes_eq m name.now) self.now.turns }
    {
        first_turn(self.turns.as_slice(), name)
    }

    /// What a name means here.
    pub(crate) fn named(&self, name: &[u8]) -> Meaning<'_>
        ensures { meaning_view result ≡ named self.now name.now }
    {
        if let Some(turn) = self.turn(name) {
            return Meaning::Turn(turn);
        }
        if let Some((number, register)) = self.registers.last(name) {
            return Meaning::Register(number, register);
        }
        match self.variables.place(name) {
            Some(variable) => Meaning::Variable(variable),
            None => Meaning::Nothing,
        }
    }

    /// The place of the last DEFINE of this name.
    pub(crate) fn function(&self, name: &[u8]) -> Option<usize>
        ensures { result ≡ last_function 0 None self.now.functions name.now }
    {
        self.functions.last(name)
    }
}

fn first_turn(turns: &[&[u8]], name: &[u8]) -> Option<usize>
    ensures { result ≡ position (λ m. bytes_eq m.now name.now) turns.now }
{
    turns.iter().position(|turn| is_text(turn, name))
}
