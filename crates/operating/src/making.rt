use flags::Flags;
use primitive::kinds::Kind;

// What a new node is, besides its formula. The owner is a table word, kept as it came: 0 for none, else its number + 1.
#[derive(Clone, Copy)]
pub struct Sort {
    pub kind: Kind,
    pub flags: Flags,
    pub owner: u64,
    pub level: u64,
}
