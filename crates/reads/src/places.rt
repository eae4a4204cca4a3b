// The values of a node: its current one and, of a signal, the pending one, at two places of the table of values. The products cannot wrap below its length.
ghost use Rattle.std.specs.Prelude.{◌≡◌, ◌≤◌, ◌+◌, ◌*◌};
ghost use Rattle.values.specs.Values.{value_at, set_value};
ghost use Rattle.reading.specs.Tables.{current_of, pending_of, set_current, set_pending};

use values::Value;

// Which of a node's two places: that of its current value, or of the pending one.
const CURRENT: u64 = 0;

const PENDING: u64 = 1;

#[tactic(auto, unfolding(values::specs::Values::value_at))]
fn load(values: &[i64], n: u64, side: u64) -> Value
    requires { side ≤ 1 }
    ensures { result ≡ value_at values.now (n * 2 + side) }
{
    if n as usize >= values.len() {
        return Value::of(0);
    }
    values::load(values, n * 2 + side)
}

#[tactic(auto, unfolding(values::specs::Values::set_value))]
fn keep(values: &mut [i64], n: u64, side: u64, v: Value)
    requires { side ≤ 1 }
    ensures { values.new ≡ set_value values.old (n * 2 + side) v }
{
    if (n as usize) < values.len() {
        values::keep(values, n * 2 + side, v);
    }
}

#[tactic(auto, unfolding(reading::specs::Tables::current_of))]
pub fn current(values: &[i64], n: u64) -> Value
    ensures { result ≡ current_of values.now n }
{
    load(values, n, CURRENT)
}

#[tactic(auto, unfolding(reading::specs::Tables::pending_of))]
pub fn pending(values: &[i64], n: u64) -> Value
    ensures { result ≡ pending_of values.now n }
{
    load(values, n, PENDING)
}

#[tactic(auto, unfolding(reading::specs::Tables::set_current))]
pub fn keep_current(values: &mut [i64], n: u64, v: Value)
    ensures { values.new ≡ set_current values.old n v }
{
    keep(values, n, CURRENT, v);
}

#[tactic(auto, unfolding(reading::specs::Tables::set_pending))]
pub fn keep_pending(values: &mut [i64], n: u64, v: Value)
    ensures { values.new ≡ set_pending values.old n v }
{
    keep(values, n, PENDING, v);
}
