//! A list of spaces. It is made, emptied and filled, and its blocks are counted.
ghost use Rattle.std.specs.Prelude.{◌≡◌, ◌++◌, ◌<◌, ◌≤◌, ◌+◌, ◌^◌, [], length, map, replicate, IfOk, OnOk, OnErr};
ghost use Rattle.std.specs.List.{All};
ghost use Rattle.tg_word.specs.declared.TheConstants.{MOST_SPACE_BLOCKS};
ghost use Rattle.tg_space.specs.SpaceList.{IsEmptyFrom, IsSpace, space_of};
ghost use Rattle.tg_space.specs.SpaceTable.{adopted, IsPrefixCount};
ghost use Rattle.tg_space.specs.declared.kind.Kind.{Kind};

use crate::space::{Space, push_all};
use std::alloc::{AllocError, Global};
use std::mem;
use tg_block::Block;

/// As many spaces with no block.
pub fn empty_spaces(alloc: Global, count: usize) -> Result<Vec<Space>, AllocError>
    ensures { IfOk result (λ spaces. spaces.items ≡ replicate count []) }
{
    let mut spaces = Vec::with_capacity(alloc, count)?;
    for _ in 0..count {
        spaces.push(Space::new(alloc))?;
    }
    Ok(spaces)
}

/// What is left of the spaces that a nursery collection emptied.
#[derive(Drop)]
pub struct Emptied {
    /// Blocks for the next collection to fill. They hold whatever they held.
    pub spare: Vec<Block>,
    /// The first nursery, as it was.
    pub nursery: Space,
}

/// Old is followed by these blocks, Aged is the other ones, and every nursery has none. The answer is the blocks that
/// were left, with those that Aged had after them, and the first nursery as it was.
///
/// The spaces from a number on, at least 2, have no block. It looks at none of them. It is refused only if memory runs
/// out. Then nothing is changed.
pub fn put_behind(
    alloc: Global,
    spaces: &mut [Space],
    filled: usize,
    aged: Space,
    old: Space,
    mut left: Vec<Block>,
) -> Result<Emptied, AllocError>
    requires enough { 2 ≤ filled }
    requires nursery { 2 < length spaces.old }
    requires empty { IsEmptyFrom filled spaces.old }
    requires room { length (space_of spaces.old 0) + length old ≤ MOST_SPACE_BLOCKS }
    ensures adopted { OnOk result (spaces.new ≡ adopted Kind.Nursery spaces.old aged old) }
    ensures first { OnOk result (IsSpace (space_of spaces.old 0 ++ old)) }
    ensures second { OnOk result (IsSpace aged) }
    ensures spare { IfOk result (λ emptied. emptied.spare.items ≡ left.items ++ space_of spaces.old 1) }
    ensures nursery { IfOk result (λ emptied. emptied.nursery ≡ space_of spaces.old 2) }
    ensures refused { OnErr result (spaces.new ≡ spaces.old) }
{
    left.reserve(spaces[1].len() as usize)?;
    spaces[0].append(old)?;
    let emptied = take_young(alloc, &mut spaces[1..], filled - 1);
    spaces[1] = aged;
    push_all(&mut left, emptied.spare);
    Ok(Emptied {
        spare: left,
        nursery: emptied.nursery,
    })
}

/// Old is these blocks, and every other space has none. The answer is the blocks that Old had.
///
/// The spaces from a number on, at least 2, have no block. It looks at none of them.
pub fn put_alone(alloc: Global, spaces: &mut [Space], filled: usize, old: Space) -> Vec<Block>
    requires enough { 2 ≤ filled }
    requires empty { IsEmptyFrom filled spaces.old }
    ensures adopted { spaces.new ≡ adopted Kind.Full spaces.old [] old }
    ensures whole { IsSpace old }
    ensures spare { result.items ≡ space_of spaces.old 0 }
{
    // This call shows that these are the blocks of a space (`IsSpace`).
    let _ = old.len();
    let emptied = take_all(alloc, spaces, filled);
    spaces[0] = old;
    emptied
}

// Takes every block out of Aged and the nurseries, which from a number on have none. The answer is the blocks of Aged,
// and the first nursery.
fn take_young(alloc: Global, young: &mut [Space], filled: usize) -> Emptied
    requires some { 1 ≤ filled }
    requires nursery { 1 < length young.old }
    requires empty { IsEmptyFrom filled young.old }
    ensures empty { young.new ≡ replicate (length young.old) [] }
    ensures spare { result.spare.items ≡ space_of young.old 0 }
    ensures nursery { result.nursery ≡ space_of young.old 1 }
{
    let nursery = mem::replace(&mut young[1], Space::new(alloc));
    let spare = take_all(alloc, young, filled);
    Emptied { spare, nursery }
}

// Takes every block out of these spaces, which from a number on have none. The answer is the blocks of the first.
fn take_all(alloc: Global, spaces: &mut [Space], filled: usize) -> Vec<Block>
    requires some { 1 ≤ filled }
    requires empty { IsEmptyFrom filled spaces.old }
    ensures empty { spaces.new ≡ replicate (length spaces.old) [] }
    ensures first { result.items ≡ space_of spaces.old 0 }
{
    let emptied = mem::replace(&mut spaces[0], Space::new(alloc));
    empty_all(alloc, spaces, filled);
    emptied.into_blocks()
}

// Takes every block out of these spaces, which from a number on have none.
fn empty_all(alloc: Global, spaces: &mut [Space], filled: usize)
    requires { IsEmptyFrom filled spaces.old }
    ensures { spaces.new ≡ replicate (length spaces.old) [] }
{
    for space in 0..filled {
        spaces[space] = Space::new(alloc);
    }
}

/// One more of each number.
pub fn add_one(numbers: &mut [u64])
    requires { All (λ n. n + 1 < 2 ^ 64) numbers.old }
    ensures { numbers.new ≡ map (λ n. n + 1) numbers.old }
{
    for number in numbers.iter_mut() {
        *number += 1;
    }
}

/// Counts the blocks before each space, and at last all of them, where only Old and Aged have any.
pub fn count_old_and_aged(spaces: &[Space], starts: &mut [u64])
    requires empty { IsEmptyFrom 2 spaces.now }
    requires room { length starts.old ≡ length spaces.now + 1 }
    ensures { IsPrefixCount starts.new spaces.now }
{
    let old = spaces[0].len();
    starts.fill(old + spaces[1].len());
    starts[0] = 0;
    starts[1] = old;
}
