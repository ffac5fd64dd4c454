// One run: the words, the function, the rows, the job, and the line.
use crate::function::function_of;
use crate::job::named;
use crate::reading::{script_of, table_of};
use crate::refusal::Refusal;
use crate::timed::tallied;
use std::alloc::Global;
use std::marker::Brand;
use std::sync::ledger::Blank;
use tx_place::{Console, Place};
use tx_text::PyText;

/// Does what the words ask for, and says the line.
pub(crate) fn run<P: Place, C: Console>(
    alloc: Global,
    words: &[PyText],
    place: &mut P,
    console: &mut C,
) -> Result<(), Refusal> {
    let [word, script, file, rounds] = words else {
        return Err(Refusal::Words);
    };
    let Some(job) = named(word.as_str()) else {
        return Err(Refusal::Words);
    };
    let Ok(rounds) = rounds.as_str().parse::<u32>() else {
        return Err(Refusal::Words);
    };
    let script = script_of(alloc, place, script.as_str())?;
    let function = function_of(alloc, &script)?;
    let table = table_of(alloc, place, file.as_str())?;
    let tally = tallied::<Brand>(alloc, job, &function, &table, rounds, Blank::new(1))?;
    let told = tally.text(alloc)?;
    let word = word.as_str();
    let told = told.as_str();
    let line = format!(in alloc; "{word} {told}\n")?;
    match console.say(line.as_bytes()) {
        Ok(()) => Ok(()),
        Err(_) => Err(Refusal::Line),
    }
}
