// The checker of a trace: line by line, beside the plain engine's steps, with their charges and the last three stores.

#![tactic(auto)]

mod looking;
mod stores;

ghost use Rattle.std.specs.Prelude.{◌≡◌, false, ◌≤◌, ◌<◌, MatchOption, drop, length};
ghost use Rattle.machine.specs.Types.{no_window};
ghost use Rattle.machine.specs.Memory.{lent, through};
ghost use Rattle.machine.specs.Plain.{plain_of, step as step_of, steps};
ghost use Rattle.machine.specs.Runs.{size_refused, window_refused};
ghost use Rattle.clocked.specs.Prediction.{core_of};
ghost use Rattle.trace.specs.Verdict.{begins as begins_of, verdict as verdict_of};
ghost use Rattle.checking.specs.State.{held, line_due, DueLine, passed_on, Checked, Open};
ghost use Rattle.checking.specs.Loop.{Fresh, at_start};

use crate::looking::{charge_of, executed_at, passed, value_after};
pub use crate::stores::Stores;
use crate::stores::{store_of, written_into};
use clocked::{Kept, Retired, Settings};
use isa::accessing::access;
use isa::decoding::is_bad;
use machine::{Accessed, Executed, Machine, PLAIN_LIMIT};
use retiring::reason_from;
use trace::{Kind, Verdict};
use trace_lines::{Line, target_of};

// How far a check has come: the plain engine's record, the charges so far, what the next charge is told by, the last stores, and the place in the trace.
#[derive(Clone, Copy)]
pub struct Checking {
    pub machine: Machine,
    pub charged: u64,
    pub kept: Kept,
    pub stores: Stores,
    pub at: usize,
}

// The next instruction, its charges with those before, and the place behind its line.
#[derive(Clone, Copy)]
struct Due {
    x: Executed,
    w: Accessed,
    charged: u64,
    next: usize,
}

// The line that is due, looked for in the trace; nothing where the trace has another.
fn due_line(settings: Settings, c: Checking, trace: &[u8], copy: &[u8]) -> Option<Due>
    requires { Open c trace.now }
    ensures { MatchOption result (begins_of (line_due (core_of settings) c (lent copy.now)) (drop c.at trace.now) ≡ false)
        (λ d. DueLine (core_of settings) trace.now c (lent copy.now) d.x d.w d.charged d.next) }
{
    let machine = c.machine;
    let x = executed_at(machine, copy);
    let w = access(x, machine.window, copy);
    let charged = c.charged + charge_of(reason_from(settings, c.kept, w.instruction));
    let target = target_of(w);
    let number = machine.count + 1;
    let line = Line {
        number,
        address: machine.address,
        cycle: number + 4 + charged,
        target,
        value: value_after(machine.registers, w, target),
    };
    let next = passed(trace, c.at, line)?;
    Some(Due {
        x,
        w,
        charged,
        next,
    })
}

// Past a right line: the plain engine makes its step.
fn pass(c: Checking, due: Due, copy: &mut [u8]) -> Checking
    requires { (c.machine.count < 65536) × (size_refused (length copy.old) ≡ false) × (window_refused c.machine.window (length copy.old) ≡ false) }
    ensures { (result ≡ passed_on c (lent copy.old) due.x due.w due.charged due.next)
        × (lent copy.new ≡ through no_window (step_of (held c (lent copy.old))).memory) }
{
    let w = due.w;
    let stores = Stores {
        first: store_of(due.x, copy),
        second: c.stores.first,
        third: c.stores.second,
    };
    let machine = plain::step(c.machine, copy).unwrap();
    Checking {
        machine,
        charged: due.charged,
        kept: Some(Retired {
            instruction: w.instruction,
            holds: w.holds,
            patched: w.patched,
        }),
        stores,
        at: due.next,
    }
}

// One line: behind the stop or the limit it is wrong, written into goes before any other fault.
fn check_line(
    settings: Settings,
    c: Checking,
    trace: &[u8],
    copy: &mut [u8],
) -> Result<Checking, Kind>
    requires { (Open c trace.now) × (length copy.old ≤ 65536) × (size_refused (length copy.old) ≡ false)
        × (window_refused c.machine.window (length copy.old) ≡ false) }
    ensures { Checked (core_of settings) trace.now c (lent copy.old) result (lent copy.new) }
{
    let machine = c.machine;
    if is_bad(machine.status) | (PLAIN_LIMIT <= machine.count) {
        return Err(Kind::NotDue);
    }
    if written_into(machine.window, c.stores, copy, machine.address) {
        return Err(Kind::Overwritten);
    }
    let due = due_line(settings, c, trace, copy).ok_or(Kind::NotDue)?;
    Ok(pass(c, due, copy))
}

#[tactic(auto, unfolding(crate::specs::Loop::at_start, crate::specs::Stores::no_store))]
fn at_start(machine: Machine) -> Checking
    ensures { result ≡ at_start machine }
{
    Checking {
        machine,
        charged: 0,
        kept: None,
        stores: Stores {
            first: None,
            second: None,
            third: None,
        },
        at: 0,
    }
}

// A trace from a fresh record on; the copy ends as the plain engine's memory after the lines found right.
pub fn check(settings: Settings, machine: Machine, trace: &[u8], copy: &mut [u8]) -> Verdict
    requires { Fresh machine copy.old }
    ensures { (result ≡ verdict_of (core_of settings) (plain_of machine (lent copy.old)) trace.now)
        × (lent copy.new ≡ through no_window (steps (plain_of machine (lent copy.old)) result.right).memory) }
{
    let mut c = at_start(machine);
    // No index counted by hand: the place goes on by each line's length.
    while c.at < trace.len() {
        match check_line(settings, c, trace, copy) {
            Ok(next) => c = next,
            Err(kind) => {
                let right = c.machine.count;
                return Verdict {
                    line: right + 1,
                    kind: Some(kind),
                    right,
                };
            }
        }
    }
    Verdict {
        line: 0,
        kind: None,
        right: c.machine.count,
    }
}
