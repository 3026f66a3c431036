// A program between a reader and a writer.
ghost use Rattle.std.specs.Prelude.{◌≡◌};

use crate::{Program, answer_all};
use std::alloc::{AllocError, Global};
use std::test::Fail;

// It prints what it reads.
struct Echo;

impl Program for Echo {
    ghost prints = { λ text printed. printed ≡ text };

    const HELP: &'static str = "prints what it reads";

    fn answer(heap: Global, text: &[u8]) -> Result<Vec<u8>, AllocError> {
        text.to_vec(heap)
    }
}

#[test]
fn all_is_read_and_its_answer_written(rt: HostRuntime) -> Result<(), Fail> {
    let mut input = b"a b\nh .\n".as_slice();
    let mut output = b"> ".to_vec(rt.alloc())?;
    let text = answer_all::<Echo, _, _>(rt.alloc(), &mut input, &mut output)?;
    assert!(rt; text.as_slice() == b"a b\nh .\n".as_slice());
    assert!(rt; output.as_slice() == b"> a b\nh .\n".as_slice());
    assert!(rt; input.is_empty());
    Ok(())
}
