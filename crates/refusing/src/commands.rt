// The ten commands with their numbers. The cells of a formula stay in the words: `cells_from` of `refusals` says where.
#[derive(Clone, Copy)]
pub enum Command {
    // 1: new signal, of this value
    Signal(i64),
    // 2: new computed
    Computed,
    // 3: new effect, with this owner
    Effect(i64),
    // 4: new scope, with this owner
    Scope(i64),
    // 5: set this node to this value
    Set(i64, i64),
    // 6: add to this node this much
    Add(i64, i64),
    // 7: read this node
    Read(i64),
    // 8: dispose this node
    Dispose(i64),
    // 9: batch start
    Start,
    // 10: batch end
    End,
    // unknown code, or wrong word count
    Unknown,
}
