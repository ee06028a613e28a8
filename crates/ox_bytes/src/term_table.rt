// The bytes of term tables (docs/FORMATS.md).
ghost use Rattle.std.specs.Prelude.{◌≡◌, ◌<◌, ◌≤◌, ◌^◌, ◌+◌, ◌++◌, length, nat_le, IfOk};
ghost use Rattle.std.specs.List.{flat_map};
ghost use Rattle.ox_types.specs.Limits.{term_limit, offset_limit};
ghost use Rattle.ox_bytes.specs.declared.fault.WireRule.TheVariants.{Order};
ghost use Rattle.ox_bytes.specs.Form.{checked};
ghost use Rattle.ox_bytes.specs.Fields.{number_to};
ghost use Rattle.ox_bytes.specs.Reading.{Gives};
ghost use Rattle.ox_bytes.specs.Writing.{Puts};
ghost use Rattle.ox_bytes.specs.Numbers.{be32};
ghost use Rattle.ox_bytes.specs.LogForms.{run_from, run_text, runs_behind};

use crate::fault::{FieldFault, WireRule};
use crate::field::Field;
use crate::reader::Reader;
use crate::writer::Writer;
use ox_types::{Head, List, NoMemory, OFFSET_LIMIT, TERM_LIMIT, Term, TermRun, TermTable};

/// A number that is at most `most`, or else out of range, and at least `least`, or else out of order.
fn take_from(from: &mut Reader<'_>, least: u64, most: u64) -> Result<u64, FieldFault>
    ensures bounded { IfOk result (λ n. n ≤ most) }
    ensures read { Gives result from.new ((checked (λ n. nat_le least n) Order (number_to most)).at from.old) }
{
    let order = from.bad(WireRule::Order);
    let number = from.take_u64_to(most)?;
    if number < least {
        return Err(FieldFault::Bad(order));
    }
    Ok(number)
}

/// A run whose term and last offset are at least these.
#[tactic(auto, unfolding(crate::specs::LogForms::run_from))]
fn take_run(from: &mut Reader<'_>, least: (u64, u64)) -> Result<TermRun, FieldFault>
    ensures bounded { IfOk result (λ run. (run.term ≤ term_limit) × (run.last ≤ offset_limit)) }
    ensures read { Gives result from.new ((run_from least).at from.old) }
{
    let term = Term(take_from(from, least.0, TERM_LIMIT)?);
    let last = take_from(from, least.1, OFFSET_LIMIT)?;
    Ok(TermRun { term, last })
}

/// The least term and last offset of a run behind this one.
fn past(run: &TermRun) -> (u64, u64)
    requires { (run.now.term ≤ term_limit) × (run.now.last ≤ offset_limit) }
    ensures { result ≡ (run.now.term + 1, run.now.last + 1) }
{
    (run.term.0 + 1, run.last + 1)
}

/// The runs behind a base. Memory is taken for the runs that came.
#[tactic(auto, unfolding(crate::specs::Lists::list_by_at))]
fn take_runs(from: &mut Reader<'_>, base: &Head) -> Result<List<TermRun>, FieldFault>
    ensures { Gives result from.new ((runs_behind base.now).at from.old) }
{
    let count = from.take_u32()?;
    let mut runs = List::new(from.alloc());
    let mut least = (base.term.0, base.count);
    for _ in 0..count {
        let run = take_run(from, least)?;
        least = past(&run);
        runs.push(run)?;
    }
    Ok(runs)
}

/// The number of the runs, and the runs.
#[tactic(auto, using(crate::specs::WritingLaws::fronts))]
fn put_runs(runs: &List<TermRun>, to: &mut Writer) -> Result<(), NoMemory>
    requires { length runs.now < 2 ^ 32 }
    ensures { Puts result to.old to.new (be32 (length runs.now) ++ flat_map run_text runs.now) }
{
    to.put_u32(runs.len() as u32)?;
    for run in runs.as_slice() {
        to.put_u64(run.term.0)?;
        to.put_u64(run.last)?;
    }
    Ok(())
}

impl Field for TermTable {
    ghost use Rattle.ox_bytes.specs.LogForms.{term_table};
    ghost use Rattle.ox_bytes.specs.LogLaws.{term_table_exact};

    ghost form = { term_table };

    ghost exact = { term_table_exact };

    #[tactic(auto, using(crate::specs::WritingLaws::fronts), unfolding(crate::specs::LogForms::term_table))]
    fn put(&self, to: &mut Writer) -> Result<(), NoMemory> {
        self.base.put(to)?;
        put_runs(&self.runs, to)?;
        Ok(())
    }

    #[tactic(auto, unfolding(crate::specs::LogForms::term_table))]
    fn read(from: &mut Reader<'_>) -> Result<TermTable, FieldFault> {
        let base = Field::take(from)?;
        let runs = take_runs(from, &base)?;
        Ok(TermTable { base, runs })
    }
}
