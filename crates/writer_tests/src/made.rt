// Clauses and a names line for the examples.
use atoms::AtomSet;
use clauses::{Clause, Kind, Origin};

// The clause whose body and head are the digits of two numbers.
// Written here too: what stands in a crate's tests serves no other crate.
pub(crate) fn clause(body: u64, head: u64) -> Clause {
    Clause {
        body: AtomSet::from_word(body),
        head: AtomSet::from_word(head),
        origin: Origin {
            kind: Kind::Table,
            number: 7,
        },
    }
}

// A names line of 64 names, each of two bytes.
pub(crate) const NAMES: &[u8] = b"\
    aa ba ca da ea fa ga ha ia ja ka la ma na oa pa \
    ab bb cb db eb fb gb hb ib jb kb lb mb nb ob pb \
    ac bc cc dc ec fc gc hc ic jc kc lc mc nc oc pc \
    ad bd cd dd ed fd gd hd id jd kd ld md nd od pd\n";
