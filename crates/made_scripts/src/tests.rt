use crate::make_script;
use ft_base::NoMemory;
use std::alloc::Global;
use std::test::Fail;

const FIVE_ROUNDS: &str = concat!(
    "hosts 3\n",
    "group bank account warm 0 1 2\n",
    "client c0\n",
    "client c1\n",
    "client c2\n",
    "client c3\n",
    "call c0 bank deposit 274\n",
    "deliver 1\n",
    "deliver 2\n",
    "call c1 bank deposit 747\n",
    "deliver 3\n",
    "deliver 4\n",
    "call c2 bank deposit 320\n",
    "deliver 5\n",
    "deliver 5\n",
    "deliver 6\n",
    "call c3 bank deposit 857\n",
    "deliver 8\n",
    "deliver 9\n",
    "call c0 bank deposit 486\n",
    "deliver 10\n",
    "deliver 11\n",
    "crash 0\n",
    "report bank 0\n",
    "deliver 13\n",
    "deliver 14\n",
    "client last\n",
    "call last bank balance\n",
    "deliver 15\n",
    "deliver 16\n",
    "show bank\n",
);

// What is counted of a script: all lines, calls of the first and of the last client, checkpoints and updates.
const COUNTED: [&[u8]; 5] = [b"", b"call c0 ", b"call c3 ", b"checkpoint ", b"update "];

// Numbers of rounds, and of those lines.
const COUNTS: [(u32, [usize; 5]); 5] = [
    (0, [15, 0, 0, 0, 0]),
    (1, [19, 1, 0, 0, 0]),
    (100, [335, 25, 25, 0, 1]),
    (999, [3238, 250, 249, 0, 9]),
    (2000, [6466, 500, 500, 2, 18]),
];

// How many lines of the script of so many rounds begin so.
fn count_lines(alloc: Global, number: u32, front: &[u8]) -> Result<usize, NoMemory> {
    let script = make_script(alloc, number)?;
    let lines = script.bytes().split(|byte| *byte == b'\n');
    Ok(
        lines
            .filter(|line| !line.is_empty() && line.starts_with(front))
            .count(),
    )
}

#[test]
fn scripts(rt: HostRuntime) -> Result<(), Fail> {
    let script = make_script(rt.alloc(), 5)?;
    assert!(rt; script.bytes() == FIVE_ROUNDS.as_bytes());
    for (number, counts) in COUNTS.iter() {
        for (front, count) in COUNTED.iter().zip(counts.iter()) {
            assert_eq!(rt;
                count_lines(rt.alloc(), *number, front)?,
                *count,
                "{number}"
            );
        }
    }
    Ok(())
}
