// The tables as text, as oracle/README.md sets it out.
use counts::room::counted;
use primitive::kinds::Kind;
use primitive::rows::{
    CYCLE, DEP, DEPS, DEPTH, FLAGS, KIND, LINK, NEXT_DEP, NEXT_SUB, NODE, SUB, SUBS, VERSION,
};
use primitive::words;
use std::io;
use stream::Outlet;
use text::answers::{Decimal, put_all};

// The tables that are shown.
#[derive(Clone, Copy)]
pub(crate) struct View<'a> {
    pub nodes: &'a [u64],
    pub links: &'a [u64],
    pub values: &'a [i64],
}

// A list of links: the word that it begins with, the field that holds the next, and the field of the node at the other end.
#[derive(Clone, Copy)]
struct List {
    head: u64,
    next: u64,
    other: u64,
}

// Text and numbers go straight into the buffer, where `spill` left room for a part of a line: `write!` takes a third longer over a dump.
fn put<W>(to: &mut Outlet<W>, text: &[u8]) {
    let at = to.sink.at;
    let out = &mut *to.out;
    to.sink.at = put_all(out, at, text);
}

fn put_number<W, N: Decimal>(to: &mut Outlet<W>, key: &[u8], n: N) {
    put(to, key);
    let at = to.sink.at;
    let out = &mut *to.out;
    to.sink.at = n.put_decimal(out, at);
}

impl View<'_> {
    fn node(&self, n: u64, field: u64) -> u64 {
        words::get(self.nodes, NODE, n, field)
    }

    fn link(&self, slot: u64, field: u64) -> u64 {
        words::get(self.links, LINK, slot, field)
    }

    fn value(&self, at: u64) -> i64 {
        values::load(self.values, at).word
    }

    // The nodes at the other ends of a list of links, and the links' versions. No list has more links than the table has words.
    fn list<W: io::Write>(&self, rt: &impl Eprint, to: &mut Outlet<W>, list: List) {
        let List { head, next, other } = list;
        let mut word = head;
        for _ in 0..self.links.len() {
            if word == 0 {
                return;
            }
            let slot = word - 1;
            to.spill(rt);
            let comma: &[u8] = if word == head { b"" } else { b"," };
            put_number(to, comma, self.link(slot, other));
            put_number(to, b":", self.link(slot, VERSION));
            word = self.link(slot, next);
        }
    }

    fn queue<W: io::Write>(&self, rt: &impl Eprint, to: &mut Outlet<W>) {
        for i in 0..queue::length(self.nodes) {
            to.spill(rt);
            let comma: &[u8] = if i == 0 { b"" } else { b"," };
            put_number(to, comma, queue::entry(self.nodes, i));
        }
    }

    // What a node is worth, and a signal's pending value.
    fn worth<W: io::Write>(&self, to: &mut Outlet<W>, n: u64) {
        if n > 1024 {
            return;
        }
        match Kind::of_word(self.node(n, KIND)) {
            Some(Kind::Signal) => {
                put_number(to, b" value=", self.value(n * 2));
                put_number(to, b" pending=", self.value(n * 2 + 1));
            }
            Some(Kind::Computed) if self.node(n, FLAGS) != 0 => {
                put_number(to, b" value=", self.value(n * 2));
                put(to, b" pending=none");
            }
            _ => put(to, b" value=none pending=none"),
        }
    }

    fn line<W: io::Write>(&self, rt: &impl Eprint, to: &mut Outlet<W>, n: u64) {
        to.spill(rt);
        put_number(to, b"\nnode=", n);
        put_number(to, b" flags=", self.node(n, FLAGS));
        self.worth(to, n);
        put(to, b" deps=");
        let deps = List {
            head: self.node(n, DEPS),
            next: NEXT_DEP,
            other: DEP,
        };
        self.list(rt, to, deps);
        put(to, b" subs=");
        let subs = List {
            head: self.node(n, SUBS),
            next: NEXT_SUB,
            other: SUB,
        };
        self.list(rt, to, subs);
    }

    // Whether all was written.
    pub(crate) fn dump(&self, rt: &(impl Print + Eprint)) -> bool {
        let mut out = [0u8; 8192];
        let mut to = Outlet::new(io::writer(rt), &mut out);
        put_number(&mut to, b"depth=", words::at(self.nodes, DEPTH));
        put_number(&mut to, b"\ncycle=", words::at(self.links, CYCLE));
        put(&mut to, b"\nqueue=");
        self.queue(rt, &mut to);
        for n in 0..counted(self.nodes) {
            self.line(rt, &mut to, n);
        }
        put(&mut to, b"\n");
        to.flush(rt);
        to.sink.ok
    }
}
