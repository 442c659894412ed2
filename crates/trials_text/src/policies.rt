// Fields of numbers, and texts of states.
ghost use Rattle.std.specs.Prelude.{length, ◌<◌, ◌^◌};

use number_text::TextFault;
use packed_rows::PackedRows;
use policy_file::number_field;
use state_files::read_states;
use std::alloc::{AllocError, Global};
use std::test::Fail;

// Fields of one number, and fields that hold none.
static NUMBERS: [(&[u8], Option<i128>); 23] = [
    (b"0", Some(0)),
    (b"-0", Some(0)),
    (b"8", Some(8)),
    (b"-07", Some(-7)),
    (b" -7", Some(-7)),
    (b"7   ", Some(7)),
    (b"0000000000000000001", Some(1)),
    (b"9223372036854775807", Some(9223372036854775807)),
    (b"-9223372036854775807", Some(-9223372036854775807)),
    (b"9223372036854775808", None),
    (b"-9223372036854775808", None),
    (b"9999999999999999999", None),
    (b"00000000000000000001", None),
    (b"", None),
    (b"   ", None),
    (b"-", None),
    (b"- 7", None),
    (b"+7", None),
    (b"1 2", None),
    (b"\t7", None),
    (b"7\t", None),
    (b"7.0", None),
    (b"8\xff", None),
];

#[test]
fn numbers(rt: HostRuntime) {
    for (field, number) in &NUMBERS {
        assert!(rt; number_field(field) == *number);
    }
}

// Texts of states of two numbers each, with those of all rows in turn.
static STATES: [(&[u8], &[i128]); 7] = [
    (b"", &[]),
    (b"\n\r\n\n", &[]),
    (b"1,-2\n3,4\n", &[1, -2, 3, 4]),
    (b"1,-2\r3,4", &[1, -2, 3, 4]),
    (b"\n1,-2\n\n3,4\r\n", &[1, -2, 3, 4]),
    (b"\"1\", -02 \n", &[1, -2]),
    (b"\xef\xbb\xbf1,-2\n", &[1, -2]),
];

// Whether rows have two columns, and these numbers in turn.
fn has_numbers(alloc: Global, states: &PackedRows, numbers: &[i128]) -> Result<bool, TextFault> {
    let mut all = Vec::new(alloc);
    let mut walk = states.walk(alloc)?;
    for _ in 0..states.rows() {
        walk.step();
        all.extend_from_slice(walk.row())?;
    }
    Ok(states.cols() == 2 && all.as_slice() == numbers)
}

// Whether a text of states of two numbers each has these. No text of the trials is longer than 99 bytes.
fn is_states(alloc: Global, text: &[u8], numbers: &[i128]) -> Result<bool, TextFault> {
    if text.len() > 99 {
        return Ok(false);
    }
    let states = read_states(alloc, text, 2)?;
    has_numbers(alloc, &states, numbers)
}

#[test]
fn states(rt: HostRuntime) -> Result<(), Fail> {
    for (text, numbers) in &STATES {
        assert!(rt; is_states(rt.alloc(), text, numbers)?);
    }
    Ok(())
}

// Texts that are none of states of so many numbers, with their first fault.
static FAULTS: [(&[u8], usize, TextFault); 10] = [
    (b"1,2\n3\n", 2, TextFault::Fields { entry: 2 }),
    (b"1,2,\n", 2, TextFault::Fields { entry: 1 }),
    (b"1,2\n3,x\n", 2, TextFault::Number { entry: 2, field: 2 }),
    (b"1,y\nx\n", 2, TextFault::Number { entry: 1, field: 2 }),
    (b"x,y\n", 2, TextFault::Number { entry: 1, field: 1 }),
    (b"\"1,2\"\n", 2, TextFault::Fields { entry: 1 }),
    (b" ", 2, TextFault::Fields { entry: 1 }),
    (b" ", 1, TextFault::Number { entry: 1, field: 1 }),
    (b"\"\"\n", 1, TextFault::Number { entry: 1, field: 1 }),
    (b"1\n1\t\n", 1, TextFault::Number { entry: 2, field: 1 }),
];

// The first fault of a text, none where it is one of states; an error where memory runs out, so that it is taken for no answer.
fn fault_of(alloc: Global, text: &[u8], n: usize) -> Result<Option<TextFault>, AllocError>
    requires { length text.now < 2 ^ 32 }
{
    match read_states(alloc, text, n) {
        Ok(_) => Ok(None),
        Err(TextFault::Memory) => Err(AllocError),
        Err(fault) => Ok(Some(fault)),
    }
}

// Whether this is the first fault of a text.
fn is_fault(alloc: Global, text: &[u8], n: usize, fault: TextFault) -> Result<bool, AllocError> {
    Ok(text.len() <= 99 && fault_of(alloc, text, n)? == Some(fault))
}

#[test]
fn faults(rt: HostRuntime) -> Result<(), Fail> {
    for &(text, n, fault) in &FAULTS {
        assert!(rt; is_fault(rt.alloc(), text, n, fault)?);
    }
    Ok(())
}
