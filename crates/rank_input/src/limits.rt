//! What may be asked for.

ghost use Rattle.std.specs.Prelude.{◌≡◌, ◌≤◌, true, Some, IfOk, IfErr};
ghost use Rattle.rank_input.specs.Input.{is_crew, is_guess, words_fault};

use crate::fault::Fault;

/// The greatest number of workers of a run.
const MOST_WORKERS: u64 = 64;

/// From that many bytes of daily files on, threads are worth starting. To read 16 MiB takes some 15 ms,
/// and to start the threads of four workers half a millisecond.
const WORTH_THREADS: u64 = 1 << 24;

/// The greatest magnitude of a guess, in the raw unit of a score.
const GREATEST_GUESS: i64 = 1 << 31;

/// Whether that many workers may run, 1 to 64.
fn may_be_crew(workers: u64) -> bool
    ensures { result ≡ is_crew workers }
{
    0 < workers && workers <= MOST_WORKERS
}

/// Whether there is no guess, or one from -2^31 to 2^31.
fn may_be_guessed(guess: Option<i64>) -> bool
    ensures { result ≡ is_guess guess }
{
    match guess {
        None => true,
        Some(score) => -GREATEST_GUESS <= score && score <= GREATEST_GUESS,
    }
}

/// Tests the options of a run, first that there are 1 to 64 workers, and then that the guess is
/// from -2^31 to 2^31.
pub fn check_words(workers: u64, guess: Option<i64>) -> Result<(), Fault>
    ensures workers { IfOk result (λ _. is_crew workers ≡ true) }
    ensures guess { IfOk result (λ _. is_guess guess ≡ true) }
    ensures err { IfErr result (λ fault. words_fault workers guess ≡ Some fault) }
{
    if !may_be_crew(workers) {
        return Err(Fault::BadWorkers);
    }
    if !may_be_guessed(guess) {
        return Err(Fault::BadGuess);
    }
    Ok(())
}

/// How many of the workers that are asked for are started over that many bytes of daily files: one,
/// if threads would take longer to start than they save.
pub fn workers_for(asked: u64, bytes: u64) -> u64
    requires { is_crew asked ≡ true }
    ensures crew { is_crew result ≡ true }
    ensures few { result ≤ asked }
{
    if bytes < WORTH_THREADS { 1 } else { asked }
}
