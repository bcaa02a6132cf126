ghost use Rattle.std.specs.Prelude.{◌≡◌, ◌≤◌, [], ◌∷◌, ◌++◌, length, IfOk, OnOk};
ghost use Rattle.script.specs.Reader.{words_left};
ghost use Rattle.script.specs.Text.{line_feed, script_of};
ghost use Rattle.sheet.specs.Law.{Answers};
ghost use Rattle.sheet.specs.Sheet.{most_bytes, plan_for, plan_line, sheet_of};

use plan::{Job, Plan};
use script::{Line, Script, number, push_number};
use std::alloc::{AllocError, Global};

// The most bytes that a sheet may have.
pub const MOST_BYTES: usize = 32_768;

// Answers a sheet of jobs: for each line `alpha period writes` the numbers of its plan, and `?` for any other line.
pub fn plan_sheet(heap: Global, input: &[u8]) -> Result<Vec<u8>, AllocError>
    ensures bytes { IfOk result (λ out. out.items ≡ sheet_of input.now) }
    ensures law { IfOk result (λ out. length input.now ≤ most_bytes → Answers (script_of input.now) (script_of out.items)) }
{
    let mut out = Vec::new(heap);
    if input.len() > MOST_BYTES {
        out.extend_from_slice(b"!\n")?;
    } else {
        for line in Script::new(input) {
            write_answer(&mut out, plan_of(line))?;
        }
    }
    Ok(out)
}

// The plan of a line, where it is three numbers in range.
fn plan_of(mut line: Line<'_>) -> Option<Plan>
    ensures { result ≡ plan_for (words_left line.entry) }
{
    let alpha = number(line.next()?)?;
    let job = Job {
        period: number(line.next()?)?.into(),
        writes: number(line.next()?)?.into(),
    };
    if line.next().is_some() {
        return None;
    }
    Plan::of(alpha.into(), job)
}

// Number by number, and not by `writeln!`: a sheet of short lines took more than half as long again by that.
fn write_answer(out: &mut Vec<u8>, plan: Option<Plan>) -> Result<(), AllocError>
    ensures { OnOk result (out.new.items ≡ out.old.items ++ (plan_line plan ++ (line_feed ∷ []))) }
{
    let Some(plan) = plan else {
        return out.extend_from_slice(b"?\n");
    };
    push_number(out, plan.meta_period)?;
    out.push(b' ')?;
    push_number(out, plan.writes)?;
    out.push(b' ')?;
    push_number(out, plan.runs)?;
    out.push(b'\n')?;
    Ok(())
}
