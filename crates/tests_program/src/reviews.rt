//! Reviews: what they leave in their files, and what remains where they are refused.
use crate::folders::{
    ADJUST_BACK, ADJUSTED, REVIEWED, ROOM, begins_to_report, file, is_silent, project, put,
    reports, run, same,
};
use std::process::Abort;
use th_devices::MemoryFolder;

/// A book with three sights over two setups. Its benchmark `X` and the pair of its weights are never
/// observed. The texts are those of a program that shares no code with this one.
const FIVE_LINES: &[u8] =
    b"110001+0000000A 84..10+00000000 88..10+00001500\n110002+0000000B 33..00+00002345 87..10+00001300\n110003+0000000B 33..00+00002347\n110004+0000000B 84..10+00000000 88..10+00001450\n110005+0000000C 33..00+00001200 87..10+00001450\n";

const POINTS: &[u8] = b"point,height,low,high,strength
A,100.00000000,100.00000000,100.00000000,
B,102.54500000,102.54500000,102.54700000,2
C,103.74500000,103.74500000,103.74700000,1
X,50.00000000,50.00000000,50.00000000,
";

const OBSERVATIONS: &[u8] =
    b"number,book,line,from,to,difference,weight,residual,control,mistake,moves,blames,blamed
1,1,2,A,B,2.54500000,1,0.00000000,1,ties,2,1,2
2,1,3,A,B,2.54700000,1,0.00200000,1,ties,2,1,1
3,1,5,B,C,1.20000000,1,0.00000000,0,unchecked,1,0,
";

const ENTRIES: &[u8] = b"book,line,word,station,length,sights,weight,mistake,moves,blames,blamed
1,1,88,A,1.50000000,2,2,unchecked,2,0,
1,2,87,A,1.30000000,2,2,unchecked,2,0,
1,4,88,B,1.45000000,1,1,unchecked,1,0,
1,5,87,B,1.45000000,1,1,unchecked,1,0,
";

const BENCHMARKS: &[u8] = b"point,height,sights,weight,strength,mistake,moves,blames,blamed
A,100.00000000,2,2,0,unchecked,2,0,
X,50.00000000,0,0,0,,,,
";

const REVIEW: &[u8] = b"HEIGHT NETWORK REVIEW
points                                 4
benchmarks                             2
observations                           3
loops                                  1
unchecked                              1
hidden                                 0
ties                                   2
entries                                4
weak entries                           4
weak benchmark                         1
weakest point                          1

BK     LINES    BLOCKS    SETUPS    SIGHTS
 1         5         5         2         3

book 1           224  9f11d44a4d94233c2c288a930e8b4461a7f64ddf0a5ffc107294cc54d19618b6  five.gsi
benchmarks        24  b936aa4923720b34c6b26a38e9829a35fc31eb9a0f44139a7b42d93c831117c9  marks
weights           21  c040775ac7f87eb4338c8380ce22382b8dbc33de60257a16502cc465c198335b  unused

largest                                3
blunder limit                 0.02000000
   NO  BK      LINE  FROM              TO                  WT              RESIDUAL   CONTROL
    2   1         3  A                 B                    1            0.00200000         1
    1   1         2  A                 B                    1            0.00000000         1
    3   1         5  B                 C                    1            0.00000000         0

POINT                           HEIGHT              HIGH-LOW  STRENGTH  WITHSTANDS
A                         100.00000000            0.00000000         -           -
B                         102.54500000            0.00200000         2           0  =
C                         103.74500000            0.00200000         1           0  1=
X                          50.00000000            0.00000000         -           -

   NO  BK      LINE  FROM              TO                  WT              RESIDUAL   CONTROL   MOVES  BLAMES
    1   1         2  A                 B                    1            0.00000000         1       2       1  =
    2   1         3  A                 B                    1            0.00200000         1       2       1  =
    3   1         5  B                 C                    1            0.00000000         0       1       0  0

BK      LINE  WORD  STATION                         LENGTH  SIGHTS    WEIGHT   MOVES  BLAMES
 1         1    88  A                           1.50000000       2         2       2       0  0
 1         2    87  A                           1.30000000       2         2       2       0  0
 1         4    88  B                           1.45000000       1         1       1       0  0
 1         5    87  B                           1.45000000       1         1       1       0  0

POINT                           HEIGHT  SIGHTS    WEIGHT  STRENGTH   MOVES  BLAMES
A                         100.00000000       2         2         0       2       0  0
X                          50.00000000       0         0         0       -       -

notes                                  4
weights record 2: C to B was never observed, but B to C was
benchmarks record 3: X was never observed
a part of the network hangs on A alone: nothing checks its height
C is sighted once (book 1 line 5)
";

/// The arguments that review the book with three sights.
const FIVE: &str = "review --benchmarks marks --weights unused --out out five.gsi";

/// The arguments that review a sight there and one back.
const BACK: &str = "review --benchmarks heights --weights weights --out out back.gsi";

/// The folder with the book of three sights and its tables.
fn five(rt: &(impl AllocGlobal + Abort)) -> MemoryFolder {
    let mut folder = project(rt, ROOM);
    put(rt, &mut folder, "five.gsi", FIVE_LINES);
    put(rt, &mut folder, "marks", b"point,height\nA,100\nX,50\n");
    put(rt, &mut folder, "unused", b"from,to,weight\nC,B,4\n");
    folder
}

/// No file of a review is there.
fn has_no_review(folder: &MemoryFolder) -> bool {
    REVIEWED.iter().all(|name| folder.file(name).is_none())
}

/// The files of the review of three sights.
const WRITTEN: [&[u8]; 5] = [POINTS, OBSERVATIONS, ENTRIES, BENCHMARKS, REVIEW];

#[test]
fn a_network_is_reviewed(rt: HostRuntime) {
    let mut folder = five(&rt);
    assert_eq!(rt; run(&rt, &mut folder, FIVE), 0);
    for (name, text) in REVIEWED.iter().zip(WRITTEN) {
        assert!(rt; same(file(&folder, name), text), "{name}");
    }
    assert!(rt; is_silent(&folder));
}

/// Reviews with a limit, and how the line of the sight back ends. Its residual is -0.01 m, so a limit of
/// 10,000 micrometres is no smaller.
const MARKS: [(&str, &str); 2] = [
    (
        "review --benchmarks heights --weights weights --blunder 10000 --out out back.gsi",
        "-0.01000000         3\n",
    ),
    (
        "review --benchmarks heights --weights weights --blunder 9999 --out out back.gsi",
        "-0.01000000         3  *\n",
    ),
];

#[test]
fn a_residual_above_the_limit_is_marked(rt: HostRuntime) {
    for (review, mark) in MARKS {
        let mut folder = project(&rt, ROOM);
        assert_eq!(rt; run(&rt, &mut folder, review), 0);
        let text = str::from_utf8(file(&folder, "out.review.txt")).unwrap_or("");
        assert!(rt; text.contains(mark), "{text}");
    }
}

#[test]
fn an_adjustment_stays_beside_its_review(rt: HostRuntime) {
    let mut folder = project(&rt, ROOM);
    let mut adjusted = project(&rt, ROOM);
    assert_eq!(rt; run(&rt, &mut adjusted, ADJUST_BACK), 0);
    assert_eq!(rt; run(&rt, &mut folder, ADJUST_BACK), 0);
    assert_eq!(rt; run(&rt, &mut folder, BACK), 0);
    assert!(rt; are_alike(&folder, &adjusted) && has_review(&folder) && has_no_review(&adjusted));
}

/// Both folders have the same files of an adjustment, and none of them is empty.
fn are_alike(folder: &MemoryFolder, other: &MemoryFolder) -> bool {
    ADJUSTED.iter().all(|name| {
        file(folder, name).len() > 0 && same(file(folder, name), file(other, name))
    })
}

/// All files of a review are there, and none of them is empty.
fn has_review(folder: &MemoryFolder) -> bool {
    REVIEWED.iter().all(|name| file(folder, name).len() > 0)
}

/// Command lines, the status, and how the line on standard error begins.
const REFUSED: [(&str, u8, &[u8]); 6] = [
    (
        "review --out out --benchmarks heights site.gsi faulty.gsi",
        2,
        b"book 2 line 1: B1 ",
    ),
    (
        "review --out out --benchmarks site.gsi site.gsi",
        2,
        b"benchmarks record 1: E1 ",
    ),
    (
        "review --out out --benchmarks heights --weights heights site.gsi",
        2,
        b"weights record 1: E1 ",
    ),
    (
        "review --out out --benchmarks elsewhere site.gsi",
        2,
        b"network: N3 no benchmark for A\n",
    ),
    (
        "review --out out --benchmarks heights none.gsi",
        5,
        b"read failed: book 1\n",
    ),
    (
        "review --out out --benchmarks none site.gsi",
        5,
        b"read failed: benchmarks\n",
    ),
];

/// A folder with a faulty book, and with benchmarks of another place.
fn faulty(rt: &(impl AllocGlobal + Abort)) -> MemoryFolder {
    let mut folder = project(rt, ROOM);
    put(rt, &mut folder, "faulty.gsi", b"no block\n");
    put(rt, &mut folder, "elsewhere", b"point,height\nX,50\n");
    folder
}

#[test]
fn a_refused_input_leaves_no_review(rt: HostRuntime) {
    for (review, status, line) in REFUSED {
        let mut folder = faulty(&rt);
        assert_eq!(rt; run(&rt, &mut folder, review), status);
        assert!(rt;
            begins_to_report(&folder, line) && has_no_review(&folder),
            "{review}"
        );
    }
}

/// The room of each sink, and the lines where one of them has too little: the files have 116, 183, 210,
/// 99 and 2,549 bytes. So the table of benchmarks fits where that of points does.
const TOO_LITTLE: [(usize, &[u8]); 4] = [
    (115, b"write failed: points\n  'out.points.csv'\n"),
    (
        182,
        b"write failed: observations\n  'out.observations.csv'\n",
    ),
    (209, b"write failed: entries\n  'out.entries.csv'\n"),
    (2_548, b"write failed: review\n  'out.review.txt'\n"),
];

#[test]
fn a_write_that_fails_changes_no_file(rt: HostRuntime) {
    let mut whole = project(&rt, 2_549);
    assert_eq!(rt; run(&rt, &mut whole, BACK), 0);
    for (room, lines) in TOO_LITTLE {
        let mut folder = project(&rt, room);
        assert_eq!(rt; run(&rt, &mut folder, BACK), 5);
        assert!(rt; reports(&folder, lines) && has_no_review(&folder));
    }
}
