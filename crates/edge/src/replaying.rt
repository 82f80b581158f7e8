// The run that every replay makes, called from each: one body, so that the clock's loop is compiled once, into one function.
ghost use Rattle.std.specs.Prelude.{◌≡◌, length};
ghost use Rattle.block.specs.Block.{with_words};
ghost use Rattle.edge.specs.Edge.{edge_run};

use block::write_words;
use clocked::{Pipeline, Settings};
use machine::Codes;
use replay_ends::Request;

// One pipelined run without logs from a fresh start; the final registers go back into their block.
pub fn replay(
    settings: Settings,
    memory: &mut [u8],
    registers: &mut [u8],
    asked: Request,
) -> Pipeline
    requires { length registers.old ≡ 120 }
    ensures { (result ≡ (edge_run settings memory.old registers.old asked.start asked.codes asked.budget).pipeline)
        × (memory.new ≡ (edge_run settings memory.old registers.old asked.start asked.codes asked.budget).memory.bytes)
        × (registers.new ≡ with_words result.registers registers.old 0) }
{
    let started = pipe::start(
        settings,
        memory.len(),
        block::read_registers(registers),
        Codes::from(asked.codes),
        asked.start,
    );
    // Matched in place and not by `record_of`, so that the archive has the clock's loop once.
    let fresh = match started {
        Ok(fresh) => fresh,
        Err(refused) => refused.given,
    };
    let end = match pipe::run_unlogged(fresh, memory, asked.budget) {
        Ok(end) => end,
        Err(refused) => refused.given,
    };
    write_words(registers, &end.registers);
    end
}
