// Made designs: their texts, what their numbers draw, and what is read of them.
use design_files::read_design;
use design_maker::{Texts, made_law, make};
use packed_rows::PackedRows;
use policy_file::read_policy;
use qp_model::{Design, DesignParts};
use state_files::read_states;
use std::alloc::Global;
use std::test::Fail;

// The design of the number 7 with two stages, whose draws were worked out by hand: 1282168116 is the first number that follows 7.
const DESIGN_OF_SEVEN: &str = "version = 1
states = 2
inputs = 2
stages = 2
[plant]
den = 4
a = [[2, 1], [1, 1]]
b = [[4, 0], [0, 4]]
[cost]
den = 1
row_den = 1
input = [4, 2]
stage = [[1, 0, 0, 3], [0, 1, 2, 2]]
final = []
[limits]
den = 4
stage = [[0, 0, 4, 0, 4], [0, 0, -4, 0, 4], [0, 0, 0, 4, 4], [0, 0, 0, -4, 4], [4, 0, 0, 0, 5], [-4, 0, 0, 0, 5], [0, 4, 0, 0, 5], [0, -4, 0, 0, 5]]
final = [[4, 0, 5], [-4, 0, 5], [0, 4, 5], [0, -4, 5]]
[box]
grid = 4
lo = [-16, -16]
hi = [16, 16]
[targets]
den = 4
violation = 1
gap = 4
";

// Whether these are its texts.
fn are_of_seven(texts: &Texts) -> bool {
    texts.design.as_slice() == DESIGN_OF_SEVEN.as_bytes()
        && texts.policy.as_slice() == "1,0,0,0,0\n1,0,0,0,0\n1,0,0,0,0\n1,0,0,0,0\n".as_bytes()
        && texts.states.as_slice() == "-16,-16\n16,-16\n-16,16\n16,16\n".as_bytes()
}

fn makes_seven(alloc: Global) -> Result<bool, Fail> {
    let texts = make(alloc, 7, 2)?;
    Ok(are_of_seven(&texts))
}

#[test]
fn of_seven(rt: HostRuntime) -> Result<(), Fail> {
    assert!(rt; makes_seven(rt.alloc())?);
    Ok(())
}

// Numbers and what they draw, as another program draws it. The draws go by the number without its highest bit.
static DRAWS: [(u32, &str); 6] = [
    (
        0,
        "a = [[1, -1], [0, 2]]\ninput = [3, 4]\nstage = [[1, 0, 1, 2], [0, 1, 2, 3]]\n",
    ),
    (
        1,
        "a = [[3, 0], [-1, 2]]\ninput = [4, 4]\nstage = [[1, 0, 0, 4], [0, 1, 0, 3]]\n",
    ),
    (
        20,
        "a = [[3, 1], [0, 3]]\ninput = [1, 2]\nstage = [[1, 0, 0, 4], [0, 1, 1, 2]]\n",
    ),
    (
        2147483647,
        "a = [[3, 1], [0, 1]]\ninput = [2, 3]\nstage = [[1, 0, 2, 4], [0, 1, 1, 3]]\n",
    ),
    (
        2147483648,
        "a = [[1, -1], [0, 2]]\ninput = [3, 4]\nstage = [[1, 0, 1, 2], [0, 1, 2, 3]]\n",
    ),
    (
        4294967295,
        "a = [[3, 1], [0, 1]]\ninput = [2, 3]\nstage = [[1, 0, 2, 4], [0, 1, 1, 3]]\n",
    ),
];

// What stands in a text after one piece of it and before the next other.
fn between<'a>(text: &'a str, from: &str, to: &str) -> Option<&'a str> {
    let (_, rest) = text.split_once(from)?;
    let (part, _) = rest.split_once(to)?;
    Some(part)
}

// The lines of a design text that its number draws.
fn drawn_lines(alloc: Global, text: &str) -> Result<String, Fail> {
    let plant = between(text, "a = ", "\n").ok_or("the plant")?;
    let input = between(text, "input = ", "\nfinal").ok_or("the cost")?;
    Ok(format!(in alloc; "a = {plant}\ninput = {input}\n")?)
}

// Whether a design text has these lines.
fn has_drawn(alloc: Global, design: &[u8], lines: &str) -> Result<bool, Fail> {
    let drawn = drawn_lines(alloc, str::from_utf8(design)?)?;
    Ok(drawn.as_str() == lines)
}

// Whether a number draws these lines.
fn is_drawn(alloc: Global, number: u32, lines: &str) -> Result<bool, Fail> {
    let texts = make(alloc, number, 1)?;
    has_drawn(alloc, texts.design.as_slice(), lines)
}

#[test]
fn draws(rt: HostRuntime) -> Result<(), Fail> {
    for &(number, lines) in &DRAWS {
        assert!(rt; is_drawn(rt.alloc(), number, lines)?);
    }
    Ok(())
}

// Whether these are the sizes of the longest horizon, and one row of the plant is that of the number 7.
fn are_longest(p: &DesignParts) -> bool {
    [p.states, p.inputs, p.stages] == [2, 2, 20]
        && 1 < p.a.rows()
        && p.a.row(1) == [1, 1].as_slice()
}

// Whether a policy text of it is read back, which is shorter than 10000 bytes.
fn is_policy(alloc: Global, text: &[u8], design: &Design) -> Result<bool, Fail> {
    if text.len() > 10000 {
        return Ok(false);
    }
    let policy = read_policy(alloc, text, design)?;
    Ok([policy.plans.rows(), policy.plans.cols()] == [4, 40])
}

// Whether the second row of states is that of the number 7.
fn is_second(alloc: Global, states: &PackedRows) -> Result<bool, Fail> {
    if states.rows() < 2 {
        return Ok(false);
    }
    let mut walk = states.walk(alloc)?;
    walk.step();
    walk.step();
    Ok(walk.row() == [16, -16].as_slice())
}

// Whether a states text of it is.
fn is_states(alloc: Global, text: &[u8]) -> Result<bool, Fail> {
    if text.len() > 10000 {
        return Ok(false);
    }
    let states = read_states(alloc, text, 2)?;
    is_second(alloc, &states)
}

// Whether the texts beside a design are read back.
fn are_read(alloc: Global, design: &Design, texts: &Texts) -> Result<bool, Fail> {
    Ok(
        are_longest(design.parts())
            && is_policy(alloc, texts.policy.as_slice(), design)?
            && is_states(alloc, texts.states.as_slice())?,
    )
}

// Whether all are.
fn are_read_back(alloc: Global, texts: &Texts) -> Result<bool, Fail> {
    let design = read_design(alloc, texts.design.as_slice())?;
    are_read(alloc, &design, texts)
}

// Whether the texts of the number 7 with the longest horizon are.
fn reads_back(alloc: Global) -> Result<bool, Fail> {
    let texts = make(alloc, 7, 20)?;
    are_read_back(alloc, &texts)
}

// The texts of the longest horizon, read back.
#[test]
fn read_back(rt: HostRuntime) -> Result<(), Fail> {
    made_law();
    assert!(rt; reads_back(rt.alloc())?);
    Ok(())
}
