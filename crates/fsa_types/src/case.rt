//! The case table by which names compare.

ghost use Rattle.std.specs.Prelude.{ℕ, List, [], ◌≡◌, ◌<◌, false, OnOk, IfOk, IfErr, length, slice_index, slice_index_or, vec_len};
ghost use Rattle.fsa_types.specs.CaseTable.{ascii_pairs, up, same_name, cmp_name, is_source, is_target, is_at_fault, first_fault, IsFaultOf};
ghost use Rattle.fsa_types.specs.CaseTableBody.{AreUpcased, AreMarks};

use crate::copy::TryCopy;
use crate::memory::NoMemory;
use std::alloc::{AllocError, Global};
use std::cmp::Ordering;
use std::marker::Model;

// How many units there are.
const UNITS: usize = 65_536;

/// Why there is no table of some pairs.
#[derive(Clone, Copy, Debug, PartialEq, Eq)]
pub enum TableFault {
    /// The pair at this place, counted from 0, is the first that is at fault: its source was a
    /// source or a target before, or its target is its source or was a source before.
    Pair(usize),
    /// There was no memory for the table.
    NoMemory,
}

impl From<NoMemory> for TableFault {
    ghost use Rattle.fsa_types.specs.declared.case.TableFault.TheVariants.{NoMemory};

    ghost from_gives = { λ _ fault. fault ≡ NoMemory };

    fn from(_error: NoMemory) -> TableFault {
        TableFault::NoMemory
    }
}

/// A case table: what each unit is upcased to. It is seen as its pairs of source and target, in
/// the order in which they were given.
///
/// A table takes 128 KiB beside its pairs, so that a unit is upcased in constant time.
pub struct UpcaseTable {
    pairs: Vec<(u16, u16)>,
    // Each unit upcased, at the place of the unit.
    upcased: Vec<u16>,
}

// One drop of the whole, so that it is one step at each end of a function that holds one.
impl Drop for UpcaseTable {
    fn drop(self) {
        let UpcaseTable {
            pairs: _,
            upcased: _,
        } = self;
    }
}

impl Model for UpcaseTable {
    ghost use Rattle.std.specs.Prelude.{List, ℕ};
    ghost use Rattle.fsa_types.specs.CaseTableBody.{AreUpcased};

    ghost Value = { List (ℕ × ℕ) };

    ghost view = { λ t. t.pairs.items };

    ghost invariant = { λ t. AreUpcased t.pairs.items t.upcased.items };
}

// The pairs of the default table.
const ASCII: [(u16, u16); 26] = [
    (97, 65),
    (98, 66),
    (99, 67),
    (100, 68),
    (101, 69),
    (102, 70),
    (103, 71),
    (104, 72),
    (105, 73),
    (106, 74),
    (107, 75),
    (108, 76),
    (109, 77),
    (110, 78),
    (111, 79),
    (112, 80),
    (113, 81),
    (114, 82),
    (115, 83),
    (116, 84),
    (117, 85),
    (118, 86),
    (119, 87),
    (120, 88),
    (121, 89),
    (122, 90),
];

impl UpcaseTable {
    /// The table of these pairs of source and target, where none of them is at fault; else the
    /// place of the first that is. A pair is at fault where its source was a source or a target
    /// before, or its target is its source or was a source before.
    ///
    /// It takes time linear in the pairs, and in the 65,536 units.
    pub fn new(alloc: Global, pairs: &[(u16, u16)]) -> Result<UpcaseTable, TableFault>
        ensures ok { IfOk result (λ table. table ≡ pairs.now) }
        ensures sound { OnOk result (first_fault pairs.now ≡ None) }
        ensures err { IfErr result (IsFaultOf pairs.now) }
    {
        check_pairs(alloc, pairs)?;
        Ok(table_of(alloc, pairs)?)
    }

    /// The default table: `a` to `z` on `A` to `Z`.
    pub fn ascii(alloc: Global) -> Result<UpcaseTable, NoMemory>
        ensures { IfOk result (λ table. table ≡ ascii_pairs) }
    {
        table_of(alloc, &ASCII)
    }

    /// The pairs, source and then target, in the order in which they were given.
    pub fn pairs(&self) -> &[(u16, u16)]
        ensures { result.now ≡ self.now }
    {
        self.pairs.as_slice()
    }

    /// A unit, upcased: the target of the pair whose source it is, or else the unit itself. It
    /// takes constant time.
    pub fn up(&self, unit: u16) -> u16
        ensures { result ≡ up self.now unit }
    {
        self.upcased[unit as usize]
    }

    /// Whether two names are the same: their upcased units are equal. It takes time linear in the
    /// shorter name, and no memory.
    pub fn same_name(&self, a: &[u16], b: &[u16]) -> bool
        ensures { result ≡ same_name self.now a.now b.now }
    {
        self.cmp_name(a, b).is_eq()
    }

    /// The order of two names: that of their upcased units, a proper prefix first. It takes time
    /// linear in the shorter name, and no memory.
    pub fn cmp_name(&self, a: &[u16], b: &[u16]) -> Ordering
        ensures { result ≡ cmp_name self.now a.now b.now }
    {
        let left = a.iter().map(|unit| self.up(*unit));
        left.cmp(b.iter().map(|unit| self.up(*unit)))
    }
}

impl TryCopy for UpcaseTable {
    fn copy(&self, alloc: Global) -> Result<UpcaseTable, NoMemory> {
        table_of(alloc, &self.pairs)
    }
}

// The table of these pairs.
fn table_of(alloc: Global, pairs: &[(u16, u16)]) -> Result<UpcaseTable, NoMemory>
    ensures { IfOk result (λ table. table ≡ pairs.now) }
{
    let upcased = upcased_units(alloc, pairs)?;
    let pairs = Vec::from_slice(alloc, pairs)?;
    Ok(UpcaseTable { pairs, upcased })
}

// Each unit upcased, at the place of the unit.
fn upcased_units(alloc: Global, pairs: &[(u16, u16)]) -> Result<Vec<u16>, AllocError>
    ensures { IfOk result (λ units. AreUpcased pairs.now units.items) }
{
    let mut units = all_units(alloc)?;
    // The first pair with a source counts, so it is written last.
    for place in (0..pairs.len()).rev() {
        let (source, target) = pairs[place];
        units[source as usize] = target;
    }
    Ok(units)
}

// Each unit at its own place.
fn all_units(alloc: Global) -> Result<Vec<u16>, AllocError>
    ensures { IfOk result (λ units. AreUpcased [] units.items) }
{
    let mut units = Vec::with_capacity(alloc, UNITS)?;
    for place in 0..UNITS {
        units.push(place as u16)?;
    }
    Ok(units)
}

// Whether each pair keeps the rule, or else which is the first that does not.
fn check_pairs(alloc: Global, pairs: &[(u16, u16)]) -> Result<(), TableFault>
    ensures ok { OnOk result (first_fault pairs.now ≡ None) }
    ensures err { IfErr result (IsFaultOf pairs.now) }
{
    let mut sources = no_marks(alloc)?;
    let mut targets = no_marks(alloc)?;
    for (place, pair) in pairs.iter().enumerate() {
        let (source, target) = *pair;
        if is_at_fault(&sources, &targets, source, target) {
            return Err(TableFault::Pair(place));
        }
        sources[source as usize] = true;
        targets[target as usize] = true;
    }
    Ok(())
}

// Marks for each unit, none of them set.
fn no_marks(alloc: Global) -> Result<Vec<bool>, NoMemory>
    ensures { IfOk result (λ marks. AreMarks (λ unit. false) marks.items) }
{
    Ok(vec![in alloc; false; UNITS]?)
}

// Whether a pair breaks the rule after pairs that have these sources and these targets.
fn is_at_fault(sources: &[bool], targets: &[bool], source: u16, target: u16) -> bool
    requires sources { length sources.now ≡ 65536 }
    requires targets { length targets.now ≡ 65536 }
    ensures { (before : List (ℕ × ℕ)) → AreMarks (is_source before) sources.now → AreMarks (is_target before) targets.now
        → result ≡ is_at_fault before (source, target) }
{
    sources[source as usize]
        || targets[source as usize]
        || target == source
        || sources[target as usize]
}
