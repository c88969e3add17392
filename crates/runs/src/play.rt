// Plays any list of calls on a table, and keeps each answer.
ghost use Rattle.std.specs.Prelude.{◌≡◌, [], IfOk};
ghost use Rattle.runs.specs.declared.script.Event.{Event};
ghost use Rattle.runs.specs.Traces.{deed, orders, phase, phases, Phase, OnRun, Act, Turn, Played};
ghost use Rattle.runs.specs.Promise.{Promised};
ghost use Rattle.runs.specs.Told.{ToldInAtoms};

use crate::script::{Call, Event, State, Step};
use analysis::begin::begin;
use atom_puts::fact::row_of;
use atom_puts::puts::put_fact;
use facts::atom::{Atom, FactTypes};
use std::alloc::{AllocError, Global};
use table::Table;

// A call on a run, if it is in the state that the call takes.
#[tactic(auto, using(crate::proofs::Acts::acts))]
fn act<F: FactTypes, T: Table>(t: &mut T, state: State, call: &Call<F>) -> (State, Event)
    ensures does { OnRun (deed F.Origin.Atom.number F.Loan.Atom.number F.Point.Atom.number F.Variable.Atom.number F.Path.Atom.number call.now) → Act T.means (phase state) t.old (deed F.Origin.Atom.number F.Loan.Atom.number F.Point.Atom.number F.Variable.Atom.number F.Path.Atom.number call.now) result.1 (phase result.0) t.new }
    ensures kept { T.means.bounds t.new ≡ T.means.bounds t.old }
{
    match (call, state) {
        (Call::Put(r), State::Filling(mut filling)) => {
            let answer = filling.put(t, *r);
            (State::Filling(filling), Event::Put(*r, answer))
        }
        (Call::PutFact(fact), State::Filling(mut filling)) => {
            let answer = put_fact(&mut filling, t, fact);
            (State::Filling(filling), Event::Put(row_of(fact), answer))
        }
        (Call::Start, State::Filling(filling)) => (State::Running(filling.start()), Event::Started),
        (Call::Advance(budget), State::Running(mut running)) => {
            let answer = running.advance(t, *budget);
            (State::Running(running), Event::Advanced(*budget, answer))
        }
        (Call::Settle, State::Running(running)) => match running.settle(t) {
            Ok(done) => (State::Done(done), Event::Settled(Ok(()))),
            Err(unfinished) => (
                State::Running(unfinished.running),
                Event::Settled(Err(unfinished.fault)),
            ),
        },
        (Call::Read(q), State::Done(done)) => {
            let answer = done.read(t, *q);
            (State::Done(done), Event::Read(*q, answer))
        }
        (_, state) => (state, Event::NotMade),
    }
}

// One step of a script.
#[tactic(auto, using(crate::proofs::Turns::turns))]
fn turn<F: FactTypes, T: Table>(
    t: &mut T,
    states: &mut Vec<Option<State>>,
    step: &Step<F>,
) -> Result<Event, AllocError>
    ensures does { IfOk result (λ e. Turn T.means (phases states.old.items) t.old (record { run = step.now.run; deed = deed F.Origin.Atom.number F.Loan.Atom.number F.Point.Atom.number F.Variable.Atom.number F.Path.Atom.number step.now.call }) e (phases states.new.items) t.new) }
    ensures kept { T.means.bounds t.new ≡ T.means.bounds t.old }
{
    if let Call::Begin = step.call {
        return match begin(t) {
            Ok(filling) => {
                states.push(Some(State::Filling(filling)))?;
                Ok(Event::Began(Ok(())))
            }
            Err(fault) => Ok(Event::Began(Err(fault))),
        };
    }
    let Some(place) = states.get_mut(step.run) else {
        return Ok(Event::NotMade);
    };
    // No state can be copied: it is moved out for the call, and its successor takes the place.
    let Some(state) = place.take() else {
        return Ok(Event::NotMade);
    };
    let (state, event) = act(t, state, &step.call);
    *place = Some(state);
    Ok(event)
}

// Plays a script on a table: any list of calls, on any runs that were begun before. Each call is made as any caller makes
// it, and its answer is kept.
pub fn play<F: FactTypes, T: Table>(
    heap: Global,
    t: &mut T,
    script: &[Step<F>],
) -> Result<Vec<Event>, AllocError>
    ensures played { IfOk result (λ log. Played T.means (orders F.Origin.Atom.number F.Loan.Atom.number F.Point.Atom.number F.Variable.Atom.number F.Path.Atom.number script.now) log.items t.old t.new) }
    ensures promised { T.means.rows t.old ≡ [] → IfOk result (λ log. Promised log.items (T.means.rows t.new)) }
    ensures atoms { T.means.rows t.old ≡ [] → IfOk result (λ log. ToldInAtoms F.Origin.Atom.number F.Loan.Atom.number F.Point.Atom.number F.Variable.Atom.number F.Path.Atom.number script.now log.items (T.means.rows t.new)) }
    ensures kept { T.means.bounds t.new ≡ T.means.bounds t.old }
{
    let mut states = Vec::new(heap);
    let mut log = Vec::new(heap);
    for step in script {
        let event = turn(t, &mut states, step)?;
        log.push(event)?;
    }
    Ok(log)
}
