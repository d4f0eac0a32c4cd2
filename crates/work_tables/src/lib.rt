// The work tables that every call borrows: whether one is too short, and clearing.
#![tactic(auto)]

ghost use Rattle.std.specs.Prelude.{◌≡◌, false, ◌||◌, ltb};
ghost use Rattle.calls.specs.Tables.{table_length, tables, TablesLeft};
ghost use Rattle.work_tables.specs.Tables.{Long};

// As many places of each table as a call uses.
const LENGTH: usize = 2048;

// Whether a work table is too short, by their lengths.
pub fn is_short(keys: usize, high: usize, low: usize) -> bool
    ensures { result ≡ (ltb keys table_length || (ltb high table_length || ltb low table_length)) }
{
    keys < LENGTH || high < LENGTH || low < LENGTH
}

// The work tables as every call leaves them that has used them.
pub fn clear_tables(keys: &mut [u64], high: &mut [i64], low: &mut [i64])
    requires { Long (tables keys.old high.old low.old) }
    ensures { let lent = tables keys.old high.old low.old in
        TablesLeft false lent (tables keys.new high.new low.new) }
{
    keys[..LENGTH].fill(0);
    high[..LENGTH].fill(0);
    low[..LENGTH].fill(0);
}
