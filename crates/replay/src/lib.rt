// A recorded trace replayed on a bench: bytes in, records out.
#![tactic(auto)]

ghost use Rattle.std.specs.Prelude.{◌≡◌, IfOk};
ghost use Rattle.lines.specs.Cuts.{lines};
ghost use Rattle.lines.specs.Lines.{decoded};
ghost use Rattle.replay.specs.Replays.{request, outcome, line_told, after_line, replayed, left_by, asked};
ghost use Rattle.bench.specs.Calls.{reply, performed};
ghost use Rattle.bench.specs.Trails.{afterwards};

use bench::Bench;
use lines::command::Command;
use lines::cutting::Lines;
use lines::parse::decode;
use refusal::{Refusal, recorded};
use station::Station;
use std::alloc::{AllocError, Global};

pub mod refusal;

// Carries a command out on the bench. Its answer is a word, 0 where there is none.
pub fn carry_out<S: Station>(bench: &mut Bench<S>, command: Command) -> Result<u32, Refusal>
    ensures value { result ≡ outcome (request command) (reply S.Station.meaning bench.old (request command)) }
    ensures after { bench.new ≡ performed S.Station.meaning bench.old (request command) }
{
    Ok(match command {
        Command::Write {
            place,
            register,
            value,
        } => {
            bench.write(place, register, value)?;
            0
        }
        Command::Read { place, register } => bench.read(place, register)?,
        Command::Wire { place, wire, level } => {
            bench.wire(place, wire, level)?;
            0
        }
        Command::Run { high, count } => bench.run(high, count)?,
        Command::Volts { place, channel } => bench.volts(place, channel)?.cast_unsigned(),
    })
}

// Carries a line of a trace out, or says why not.
pub fn replay_line<S: Station>(bench: &mut Bench<S>, line: &[u8]) -> Result<u32, Refusal>
    ensures value { result ≡ line_told S.Station.meaning bench.old (decoded line.now) }
    ensures after { bench.new ≡ after_line S.Station.meaning bench.old (decoded line.now) }
{
    carry_out(bench, decode(line)?)
}

// A bench after a trace, and the records of the trace.
#[derive(Drop)]
pub struct Replayed<S> {
    pub bench: Bench<S>,
    pub records: Vec<u8>,
}

// Replays a whole trace.
#[tactic(auto, using(crate::proofs::Asked::left_asked), unfolding(crate::specs::Replays::replayed, crate::specs::Replays::left_by))]
pub fn replay<S: Station + Drop>(
    heap: Global,
    mut bench: Bench<S>,
    trace: &[u8],
) -> Result<Replayed<S>, AllocError>
    ensures replayed { IfOk result (λ done. (done.records.items ≡ replayed S.Station.meaning bench (lines trace.now)) × (done.bench ≡ left_by S.Station.meaning bench (lines trace.now))) }
    ensures requests { IfOk result (λ done. done.bench ≡ afterwards S.Station.meaning bench (asked (lines trace.now))) }
{
    let mut records = Vec::new(heap);
    for line in Lines::of(trace) {
        let outcome = replay_line(&mut bench, line);
        records.extend_from_slice(&recorded(outcome))?;
    }
    Ok(Replayed { bench, records })
}
