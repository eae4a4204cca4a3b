// The log of runs: rows of two words, the effect's number and the value of its formula.
ghost use Rattle.std.specs.Prelude.{◌≡◌};
ghost use Rattle.operating.specs.Log.{number_word, rowed, rows_in};

use values::Value;

// A node's number is far below it.
const HALF: u64 = 1 << 63;

// A remainder and no i64::try_from: this conversion cannot fail, and that one could.
#[tactic(auto, unfolding(operating::specs::Log::number_word))]
pub fn number_word(n: u64) -> i64
    ensures { result ≡ number_word n }
{
    (n % HALF) as i64
}

// One row at the front, where the log has room for one. The answer is how many rows were written.
#[tactic(auto, unfolding(operating::specs::Log::rows_in, operating::specs::Log::rowed))]
pub fn write_row(log: &mut [i64], e: u64, v: Value) -> u64
    ensures value { result ≡ rows_in log.old }
    ensures log_after { log.new ≡ rowed log.old e v }
{
    if log.len() < 2 {
        return 0;
    }
    log[0] = number_word(e);
    log[1] = v.word;
    1
}
