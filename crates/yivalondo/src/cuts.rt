// How an image is cut into blocks, as a radio link would.
use anyhow::{anyhow, bail, ensure};

// The size of a block where no sizes are asked for.
const USUAL_SIZE: usize = 64;

// The greatest random size.
const GREATEST_SIZE: u64 = 256;

// How many random sizes make a row.
const RANDOM_SIZES: usize = 8192;

// The most blocks that an image is cut into.
const MOST_BLOCKS: usize = 1 << 22;

// The sizes of a text such as 64,7,128.
fn read_row(rt: &HostRuntime, text: &str) -> anyhow::Result<Vec<usize>> {
    ensure!(!text.is_empty(), "--blocks: the row of sizes is empty");
    let mut row = Vec::new(rt.alloc());
    for (number, part) in (1u64..).zip(text.split(',')) {
        let Ok(size) = part.parse::<usize>() else {
            bail!("--blocks: size {number} of the row is no number, or too great: '{part}'");
        };
        row.push(size)?;
    }
    ensure!(
        row.iter().any(|size| *size > 0),
        "--blocks: the row has zeros alone, so that no block has a byte"
    );
    Ok(row)
}

// The next state of a xorshift generator: never 0 behind another state.
fn next_state(state: u64) -> u64 {
    let state = state ^ (state << 13);
    let state = state ^ (state >> 7);
    state ^ (state << 17)
}

// Random sizes by a seed. The last is the greatest, so that the row never has zeros alone.
fn random_row(rt: &HostRuntime, seed: u64) -> anyhow::Result<Vec<usize>> {
    let mut row = Vec::new(rt.alloc());
    let mut state = seed ^ 0x9e37_79b9_7f4a_7c15;
    for _ in 1..RANDOM_SIZES {
        state = next_state(state);
        row.push((state % (GREATEST_SIZE + 1)) as usize)?;
    }
    row.push(GREATEST_SIZE as usize)?;
    Ok(row)
}

// The number that an option is given.
pub fn read_number(option: &str, text: &str) -> anyhow::Result<usize> {
    text.parse::<usize>()
        .map_err(|_| anyhow!("{option}: no number, or too great: '{text}'"))
}

// The row of sizes by the texts of `--blocks` and `--seed`.
pub fn row(
    rt: &HostRuntime,
    blocks: Option<&str>,
    seed: Option<&str>,
) -> anyhow::Result<Vec<usize>> {
    match (blocks, seed) {
        (Some(_), Some(_)) => bail!(
            "--blocks and --seed both say how the image is cut: give one of them"
        ),
        (Some(text), None) => read_row(rt, text),
        (None, Some(text)) => random_row(rt, read_number("--seed", text)? as u64),
        (None, None) => Ok(vec![in rt.alloc(); USUAL_SIZE]?),
    }
}

// Where the blocks of so many bytes end: the sizes of the row in turn, again and again, and the last block cut.
pub fn cuts(rt: &HostRuntime, row: &[usize], length: usize) -> anyhow::Result<Vec<usize>> {
    let mut cuts = Vec::new(rt.alloc());
    let mut end = 0usize;
    for size in row.iter().cycle().take(MOST_BLOCKS) {
        if end >= length {
            break;
        }
        end = end.saturating_add(*size).min(length);
        cuts.push(end)?;
    }
    ensure!(
        end >= length,
        "--blocks: the sizes cut the image into more than {MOST_BLOCKS} blocks"
    );
    Ok(cuts)
}
