//! The packs among which plans are searched.

ghost use Rattle.std.specs.Prelude.{◌≡◌, ◌<◌, [], IfOk, None, OnOk, bytes_eq, false, get_or, is_some, length, map, true};
ghost use Rattle.indexmap.specs.IndexSet.{insert_key};
ghost use Rattle.vg_kernel_plans.specs.Taken.{IsShort, MatchesNear};
ghost use Rattle.vg_beam.specs.PackTable.{
  AreNumbered,
  AreTaken,
  IsPackTable,
  IsNumbered,
  IsOpened,
  pack_at,
  produced_at,
};
ghost use Rattle.vg_beam.specs.Key.{first_place};
ghost use Rattle.vg_beam.specs.SearchSpace.{HasGroups, choice_of, described};

use crate::pack_words::words_of;
use crate::search_space::SearchSpace;
use indexmap::IndexSet;
use std::alloc::{AllocError, Global};
use vg_base::Items;
use vg_kernel_plans::copies::copy_pack;
use vg_kernel_plans::taken::operands_of;
use vg_packs::tried_by;
use vg_shapes::{Operand, Pack};

/// The greatest number of packs.
const MOST: usize = 1 << 24;

/// Packs, no two the same, each named by its number, the words that tell each from the others, by which it
/// is found, and for each the operands that it takes, if it has few lanes, and the numbers of those that are
/// tried for what it takes, once they were looked for.
pub(crate) struct PackTable {
    packs: Vec<Pack>,
    places: IndexSet<Vec<u32>>,
    operands: Vec<Items<Operand>>,
    produced: Vec<Option<Items<u32>>>,
}

/// Written out, so that the exits of an owner call it: a derived one would be proved anew at each.
impl Drop for PackTable {
    fn drop(self) {
        let PackTable {
            packs: _,
            places: _,
            operands: _,
            produced: _,
        } = self;
    }
}

/// The place of a key, or the number of keys where it is none of them.
fn place_of(places: &IndexSet<Vec<u32>>, words: &[u32]) -> usize
    ensures { result ≡ first_place (bytes_eq words.now) (map (λ k. k.items) places.now.keys) }
{
    places.get_index_of(words).unwrap_or(places.len())
}

/// Adds a key, unless it is there.
fn note(places: &mut IndexSet<Vec<u32>>, words: Vec<u32>) -> Result<(), AllocError>
    ensures { OnOk result (map (λ k. k.items) places.new.keys ≡ insert_key bytes_eq (map (λ k.
        k.items) places.old.keys) words.items) }
{
    match places.insert(words) {
        Ok(_) => Ok(()),
        Err(e) => Err(e.into()),
    }
}

/// Whether a pack has few lanes.
fn is_short(pack: &Pack) -> bool
    ensures few { result ≡ true → IsShort pack.now }
    ensures many { result ≡ false → IsShort pack.now → ⊥ }
{
    match pack {
        Pack::Stores(units) => units.as_slice().len() <= 64,
        Pack::Loads(units) => units.as_slice().len() <= 64,
        Pack::Call { lanes, .. } => lanes.as_slice().len() < 1 << 32,
    }
}

/// The operands that a pack takes, if it has few lanes.
fn operands_taken(
    alloc: Global,
    pack: &Pack,
    space: &SearchSpace,
) -> Result<Items<Operand>, AllocError>
    requires { MatchesNear space.now.table.now }
    ensures { IfOk result (AreTaken (described space.now) space.now.table.now space.now.ssa.now
        pack.now) }
{
    if !is_short(pack) {
        return Ok(Items::from_vec(Vec::new(alloc)));
    }
    let operands = operands_of(alloc, space.descriptions, space.table, space.ssa, pack)?;
    Ok(Items::from_vec(operands))
}

impl PackTable {
    /// The table of no packs.
    pub(crate) fn new(alloc: Global) -> PackTable
        ensures packs { result.packs.items ≡ [] }
        ensures places { result.places.keys ≡ [] }
        ensures operands { result.operands.items ≡ [] }
        ensures produced { result.produced.items ≡ [] }
    {
        PackTable {
            packs: Vec::new(alloc),
            places: IndexSet::new(alloc),
            operands: Vec::new(alloc),
            produced: Vec::new(alloc),
        }
    }

    /// The pack of a number, which is one of the table.
    pub(crate) fn pack(&self, number: u32) -> &Pack
        requires { number < length self.now.packs.items }
        ensures { result.now ≡ pack_at self.now.packs.items number }
    {
        &self.packs[number as usize]
    }

    /// The operands that the pack of a number takes, if it has few lanes.
    pub(crate) fn operands(&self, number: u32) -> &[Operand]
        requires { number < length self.now.operands.items }
        ensures { result.now ≡ get_or self.now.operands.items number [] }
    {
        self.operands[number as usize].as_slice()
    }

    /// The number of a pack, which is put in the table if it is not there. Where there are some 2^24
    /// packs there is no memory.
    fn number(&mut self, alloc: Global, pack: &Pack, space: &SearchSpace) -> Result<u32, AllocError>
        requires near { MatchesNear space.now.table.now }
        requires pack_table { IsPackTable (choice_of space.now) (described space.now)
            space.now.table.now space.now.ssa.now self.old }
        ensures { IfOk result (IsNumbered (choice_of space.now) (described space.now)
            space.now.table.now space.now.ssa.now self.old self.new pack.now) }
    {
        let words = words_of(alloc, pack)?;
        let place = place_of(&self.places, words.as_slice());
        if place >= MOST {
            return Err(AllocError);
        }
        if place < self.packs.len() {
            return Ok(place as u32);
        }
        let copy = copy_pack(alloc, pack)?;
        let operands = operands_taken(alloc, pack, space)?;
        note(&mut self.places, words)?;
        self.packs.push(copy)?;
        self.operands.push(operands)?;
        self.produced.push(None)?;
        Ok(place as u32)
    }

    /// The numbers of packs, which are put in the table if they are not there.
    pub(crate) fn number_all(
        &mut self,
        alloc: Global,
        packs: &[Pack],
        space: &SearchSpace,
    ) -> Result<Vec<u32>, AllocError>
        requires near { MatchesNear space.now.table.now }
        requires pack_table { IsPackTable (choice_of space.now) (described space.now)
            space.now.table.now space.now.ssa.now self.old }
        ensures { IfOk result (λ numbers. AreNumbered (choice_of space.now) (described space.now)
            space.now.table.now space.now.ssa.now self.old self.new packs.now numbers.items) }
    {
        let mut numbers = Vec::new(alloc);
        'packs: for pack in packs {
            let number = self.number(alloc, pack, space)?;
            numbers.push(number)?;
        }
        Ok(numbers)
    }

    fn is_open(&self, number: u32) -> bool
        requires { number < length self.now.produced.items }
        ensures { result ≡ is_some (get_or self.now.produced.items number None) }
    {
        self.produced[number as usize].is_some()
    }

    /// Looks for the packs that are tried for what a pack takes, if they were not looked for.
    pub(crate) fn open(
        &mut self,
        alloc: Global,
        number: u32,
        space: &SearchSpace,
    ) -> Result<(), AllocError>
        requires near { MatchesNear space.now.table.now }
        requires groups { HasGroups space.now }
        requires number { number < length self.old.packs.items }
        requires pack_table { IsPackTable (choice_of space.now) (described space.now)
            space.now.table.now space.now.ssa.now self.old }
        ensures { OnOk result (IsOpened (choice_of space.now) (described space.now)
            space.now.table.now space.now.ssa.now self.old self.new number) }
    {
        if self.is_open(number) {
            return Ok(());
        }
        let packs = tried_by(
            alloc,
            space.descriptions,
            space.table,
            space.ssa,
            space.groups,
            self.pack(number),
        )?;
        let numbers = self.number_all(alloc, packs.as_slice(), space)?;
        self.produced[number as usize] = Some(Items::from_vec(numbers));
        Ok(())
    }

    /// The numbers of the packs that are tried for what a pack takes, if they were looked for.
    pub(crate) fn produced(&self, number: u32) -> &[u32]
        requires { number < length self.now.produced.items }
        ensures { result.now ≡ produced_at self.now number }
    {
        match &self.produced[number as usize] {
            None => &[],
            Some(numbers) => numbers.as_slice(),
        }
    }
}
