//! The pairs of a case table, read one by one.

ghost use Rattle.std.specs.Prelude.{◌≡◌, ◌++◌, ◌∷◌, [], false, OnOk, IfOk};
ghost use Rattle.fsa_types.specs.CaseTable.{is_at_fault};
ghost use Rattle.fsa_types.specs.CaseTableBody.{AreMarks};

use fsa_types::{NoMemory, TableFault, UpcaseTable};
use std::alloc::Global;
use std::marker::Model;

// How many units there are.
const UNITS: usize = 65_536;

/// Pairs of source and target, none of them at fault after those before it.
pub struct PairList {
    pairs: Vec<(u16, u16)>,
    // Which units are sources, and which are targets.
    sources: Vec<bool>,
    targets: Vec<bool>,
}

// One drop of the whole, so that it is one step at each end of a function that holds one.
impl Drop for PairList {
    fn drop(self) {
        let PairList {
            pairs: _,
            sources: _,
            targets: _,
        } = self;
    }
}

impl Model for PairList {
    ghost use Rattle.std.specs.Prelude.{List, ℕ};
    ghost use Rattle.script_read.specs.Marks.{AreSound};

    ghost Value = { List (ℕ × ℕ) };

    ghost view = { λ l. l.pairs.items };

    ghost invariant = { λ l. AreSound l.pairs.items l.sources.items l.targets.items };
}

impl PairList {
    /// No pairs.
    pub fn new(alloc: Global) -> Result<PairList, NoMemory>
        ensures { IfOk result (λ list. list ≡ []) }
    {
        let sources = no_marks(alloc)?;
        let targets = no_marks(alloc)?;
        let pairs = Vec::new(alloc);
        Ok(PairList {
            pairs,
            sources,
            targets,
        })
    }

    /// Whether a pair would be at fault behind these.
    pub fn is_at_fault(&self, source: u16, target: u16) -> bool
        ensures { result ≡ is_at_fault self.now (source, target) }
    {
        self.sources[source as usize]
            || self.targets[source as usize]
            || target == source
            || self.sources[target as usize]
    }

    /// Puts a pair at the end that is not at fault.
    pub fn add(&mut self, source: u16, target: u16) -> Result<(), NoMemory>
        requires { is_at_fault self.old (source, target) ≡ false }
        ensures { OnOk result (self.new ≡ self.old ++ (source, target) ∷ []) }
    {
        self.pairs.push((source, target))?;
        self.sources[source as usize] = true;
        self.targets[target as usize] = true;
        Ok(())
    }

    /// The case table of these pairs.
    pub fn table(&self, alloc: Global) -> Result<UpcaseTable, NoMemory>
        ensures { IfOk result (λ table. table ≡ self.now) }
    {
        match UpcaseTable::new(alloc, &self.pairs) {
            Ok(table) => Ok(table),
            Err(TableFault::NoMemory) => Err(NoMemory),
            Err(TableFault::Pair(_)) => unreachable!(),
        }
    }
}

// Marks for each unit, none of them set.
fn no_marks(alloc: Global) -> Result<Vec<bool>, NoMemory>
    ensures { IfOk result (λ marks. AreMarks (λ unit. false) marks.items) }
{
    Ok(vec![in alloc; false; UNITS]?)
}
