ghost use Rattle.std.specs.Prelude.{◌≡◌, ◌<◌, ◌≤◌, [], ◌∷◌, ◌++◌, All, IfOk, OnOk, IsTrue, length, slice_get};
ghost use Rattle.std.specs.Prelude.{slice_index_or, slice_set};
ghost use Rattle.read_sources.specs.Ways.{IsSource, way_of};
ghost use Rattle.read_sources.specs.Sources.{IsRead, AreSourcesOf, most_sources};
ghost use Rattle.read_sources.specs.Parts.{IsShared, IsOfGroup, SomeMakesArrowsOf, IsPut, ArePartsOfAll};

use crate::alike::{is_shared, serve_alike};
use crate::group::Group;
use crate::mark::{MARKS, mark_of};
use crate::same_arrows::makes_arrows_of;
use crate::source::Source;
use rule_model::Model;
use std::alloc::{AllocError, Global};

// From so many sources on a group is worth a node of its own.
const MANY: u32 = 16;

/// What is read at the same lag, parted.
#[derive(Drop)]
pub struct Parted<'a> {
    /// The single sources. Of those that make the same arrows one is kept.
    pub singles: Vec<Source<'a>>,
    /// The first source of each group.
    pub heads: Vec<Source<'a>>,
    /// All sources of each group: they always read the node of one element, and read from the same elements.
    pub groups: Vec<Group<'a>>,
}

/// Parts sources into single ones and groups.
pub fn part_sources<'a>(
    alloc: Global,
    model: &Model,
    sources: &[Source<'a>],
) -> Result<Parted<'a>, AllocError>
    requires sources { AreSourcesOf model.now sources.now }
    requires each { All (IsSource model.now) sources.now }
    ensures { IfOk result (ArePartsOfAll model.now) }
{
    let _space = model.space();
    let counts = count_marks(alloc, model, sources)?;
    let mut lasts = vec![in alloc; None; MARKS]?;
    let mut parted = Parted {
        singles: Vec::new(alloc),
        heads: Vec::new(alloc),
        groups: Vec::new(alloc),
    };
    'each: for k in 0..sources.len() {
        let source = sources[k];
        let mark = mark_of(model, source);
        let last = lasts[mark];
        lasts[mark] = put(alloc, model, source, counts[mark], last, &mut parted)?;
    }
    Ok(parted)
}

// How many sources have each mark.
fn count_marks(alloc: Global, model: &Model, sources: &[Source]) -> Result<Vec<u32>, AllocError>
    requires { All (IsSource model.now) sources.now }
    ensures { IfOk result (λ counts. length counts.items ≡ 4_096) }
{
    let mut counts = vec![in alloc; 0_u32; MARKS]?;
    'each: for k in 0..sources.len() {
        let mark = mark_of(model, sources[k]);
        counts[mark] = counts[mark].saturating_add(1);
    }
    Ok(counts)
}

// Places a source of which so many have its mark, and the last group or single source of that has this number.
fn put<'a>(
    alloc: Global,
    model: &Model,
    source: Source<'a>,
    count: u32,
    last: Option<u32>,
    parted: &mut Parted<'a>,
) -> Result<Option<u32>, AllocError>
    requires source { IsSource model.now source }
    requires read { IsRead model.now source }
    requires singles { All (IsSource model.now) parted.old.singles.items }
    requires single { All (IsRead model.now) parted.old.singles.items }
    requires heads { All (IsSource model.now) parted.old.heads.items }
    requires each { All (IsRead model.now) parted.old.heads.items }
    requires whole { length parted.old.groups.items ≡ length parted.old.heads.items }
    requires few_singles { length parted.old.singles.items ≤ most_sources }
    requires few { length parted.old.heads.items ≤ most_sources }
    ensures { OnOk result (IsPut model.now source.entry parted.old parted.new) }
{
    if count < MANY || !is_shared(model, source) {
        return put_single(model, source, last, parted);
    }
    match last {
        Some(group) if is_of_group(model, source, group, parted) => {
            join(source, group, parted)?;
            Ok(last)
        }
        _ => Ok(Some(begin(alloc, source, parted)?)),
    }
}

// Places a source as a single one, unless this one makes its arrows, and says which makes them.
fn put_single<'a>(
    model: &Model,
    source: Source<'a>,
    last: Option<u32>,
    parted: &mut Parted<'a>,
) -> Result<Option<u32>, AllocError>
    requires source { IsSource model.now source }
    requires read { IsRead model.now source }
    requires singles { All (IsSource model.now) parted.old.singles.items }
    requires single { All (IsRead model.now) parted.old.singles.items }
    requires few { length parted.old.singles.items ≤ most_sources }
    ensures { OnOk result (IsPut model.now source.entry parted.old parted.new) }
{
    match last {
        Some(k) if is_made_by_single(model, source, k, parted) => Ok(last),
        _ => Ok(Some(add_single(source, parted)?)),
    }
}

// Whether it is known at once that the single source of this number makes the arrows of a source.
fn is_made_by_single(model: &Model, source: Source, k: u32, parted: &Parted) -> bool
    requires source { IsSource model.now source }
    requires read { IsRead model.now source }
    requires singles { All (IsSource model.now) parted.now.singles.items }
    requires single { All (IsRead model.now) parted.now.singles.items }
    ensures { IsTrue result → SomeMakesArrowsOf model.now parted.now.singles.items source.entry }
{
    match single_of(parted, k) {
        Some(one) => makes_arrows_of(model, one, source),
        None => false,
    }
}

// The single source of this number.
fn single_of<'a>(parted: &Parted<'a>, k: u32) -> Option<Source<'a>>
    ensures { result ≡ slice_get parted.now.singles.items k }
{
    parted.singles.get(k as usize).copied()
}

// Whether it is known at once that a source reads from the same elements as a group.
fn is_of_group(model: &Model, source: Source, group: u32, parted: &Parted) -> bool
    requires source { IsSource model.now source }
    requires read { IsRead model.now source }
    requires heads { All (IsSource model.now) parted.now.heads.items }
    requires each { All (IsRead model.now) parted.now.heads.items }
    ensures { IsTrue result → IsOfGroup model.now parted.now group source.entry }
{
    match head_of(parted, group) {
        Some(head) => serve_alike(model, head, source),
        None => false,
    }
}

// The first source of a group.
fn head_of<'a>(parted: &Parted<'a>, group: u32) -> Option<Source<'a>>
    ensures { result ≡ slice_get parted.now.heads.items group }
{
    parted.heads.get(group as usize).copied()
}

// Adds a single source, and gives its number.
fn add_single<'a>(source: Source<'a>, parted: &mut Parted<'a>) -> Result<u32, AllocError>
    requires { length parted.old.singles.items ≤ most_sources }
    ensures singles { OnOk result (parted.new.singles.items ≡ parted.old.singles.items ++ source.entry ∷ []) }
    ensures heads { OnOk result (parted.new.heads.items ≡ parted.old.heads.items) }
    ensures groups { OnOk result (parted.new.groups.items ≡ parted.old.groups.items) }
{
    let single = parted.singles.len() as u32;
    parted.singles.push(source)?;
    Ok(single)
}

// Adds a source to a group.
fn join<'a>(source: Source<'a>, group: u32, parted: &mut Parted<'a>) -> Result<(), AllocError>
    requires { group < length parted.old.groups.items }
    ensures singles { OnOk result (parted.new.singles.items ≡ parted.old.singles.items) }
    ensures heads { OnOk result (parted.new.heads.items ≡ parted.old.heads.items) }
    ensures groups { OnOk result (parted.new.groups.items ≡ slice_set parted.old.groups.items group
        (slice_index_or parted.old.groups.items group [] ++ source.entry ∷ [])) }
{
    add_member(&mut parted.groups, group, source)?;
    Ok(())
}

// Puts a source at the end of a group.
fn add_member<'a>(
    groups: &mut Vec<Group<'a>>,
    at: u32,
    source: Source<'a>,
) -> Result<(), AllocError>
    requires { at < length groups.old.items }
    ensures { OnOk result (groups.new.items ≡ slice_set groups.old.items at
        (slice_index_or groups.old.items at [] ++ source.entry ∷ [])) }
{
    groups[at as usize].push(source)
}

// Begins a group with a source, and gives its number.
fn begin<'a>(alloc: Global, source: Source<'a>, parted: &mut Parted<'a>) -> Result<u32, AllocError>
    requires { length parted.old.heads.items ≤ most_sources }
    ensures singles { OnOk result (parted.new.singles.items ≡ parted.old.singles.items) }
    ensures heads { OnOk result (parted.new.heads.items ≡ parted.old.heads.items ++ source.entry ∷ []) }
    ensures groups { OnOk result (parted.new.groups.items
        ≡ parted.old.groups.items ++ (source.entry ∷ []) ∷ []) }
{
    let group = parted.heads.len() as u32;
    let own = Group::of(alloc, source)?;
    parted.heads.push(source)?;
    parted.groups.push(own)?;
    Ok(group)
}
