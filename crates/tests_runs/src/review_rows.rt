//! Small networks, and the texts of their reviews.
use crate::helpers::Texts;
use crate::projects::{A_AT_100, TWO_SIGHTS};

/// The texts of a review: its points, its observations, its entries, its benchmarks, and the review for
/// people.
pub(crate) type Written = [&'static [u8]; 5];

/// A network and its review. The texts are those of a program that shares no code with this one.
#[derive(Clone, Copy)]
pub(crate) struct Row {
    pub texts: Texts<'static>,
    pub written: Written,
}

/// The header of the table of entries.
pub(crate) const NO_ENTRIES: &[u8] =
    b"book,line,word,station,length,sights,weight,mistake,moves,blames,blamed\n";

/// The header of the table of observations.
pub(crate) const NO_OBSERVATIONS: &[u8] =
    b"number,book,line,from,to,difference,weight,residual,control,mistake,moves,blames,blamed\n";

/// The header of the table of benchmarks.
pub(crate) const NO_BENCHMARKS: &[u8] =
    b"point,height,sights,weight,strength,mistake,moves,blames,blamed\n";

/// Neither an observation nor a benchmark.
pub(crate) const NOTHING: Row = Row {
    texts: (b"", b"point,height\n", b""),
    written: [
        b"point,height,low,high,strength\n",
        NO_OBSERVATIONS,
        NO_ENTRIES,
        NO_BENCHMARKS,
        b"HEIGHT NETWORK REVIEW
points                                 0
benchmarks                             0
observations                           0
loops                                  0
unchecked                              0
hidden                                 0
ties                                   0
entries                                0
weak entries                           0
weak benchmark                         0
weakest point                          -

BK     LINES    BLOCKS    SETUPS    SIGHTS
 1         0         0         0         0

book 1             0  e3b0c44298fc1c149afbf4c8996fb92427ae41e4649b934ca495991b7852b855  monday.gsi
benchmarks        13  3b0315cef593d295ccc6dbdca13f35321ef2853871104bfe80d77f863a64509a  marks.csv
weights            0  e3b0c44298fc1c149afbf4c8996fb92427ae41e4649b934ca495991b7852b855  weights.csv

largest                                0
blunder limit                 0.02000000
   NO  BK      LINE  FROM              TO                  WT              RESIDUAL   CONTROL

POINT                           HEIGHT              HIGH-LOW  STRENGTH  WITHSTANDS

   NO  BK      LINE  FROM              TO                  WT              RESIDUAL   CONTROL   MOVES  BLAMES

BK      LINE  WORD  STATION                         LENGTH  SIGHTS    WEIGHT   MOVES  BLAMES

POINT                           HEIGHT  SIGHTS    WEIGHT  STRENGTH   MOVES  BLAMES

notes                                  0
",
    ],
};

/// A benchmark, and a book of a digital level, which has no observation.
pub(crate) const ALONE: Row = Row {
    texts: (
        b"410001+00000002 \n110002+0000000A 32...8+00274800 331.08+00158231 \n110003+0000000B 32...8+00274400 332.08+00031031 \n",
        A_AT_100,
        b"",
    ),
    written: [
        b"point,height,low,high,strength\nA,100.00000000,100.00000000,100.00000000,\n",
        NO_OBSERVATIONS,
        NO_ENTRIES,
        b"point,height,sights,weight,strength,mistake,moves,blames,blamed
A,100.00000000,0,0,,,,,
",
        b"HEIGHT NETWORK REVIEW
points                                 1
benchmarks                             1
observations                           0
loops                                  0
unchecked                              0
hidden                                 0
ties                                   0
entries                                0
weak entries                           0
weak benchmark                         0
weakest point                          -

BK     LINES    BLOCKS    SETUPS    SIGHTS
 1         3         3         0         0

book 1           115  406bd9b1041d9af608a5abd64537fe03a203d63a323c86e91e52a2ae31991531  monday.gsi
benchmarks        19  c15a70569a2e2d0025454e42e8ef947dc907df9de97213f74d4ed8795fbdba58  marks.csv
weights            0  e3b0c44298fc1c149afbf4c8996fb92427ae41e4649b934ca495991b7852b855  weights.csv

largest                                0
blunder limit                 0.02000000
   NO  BK      LINE  FROM              TO                  WT              RESIDUAL   CONTROL

POINT                           HEIGHT              HIGH-LOW  STRENGTH  WITHSTANDS
A                         100.00000000            0.00000000         -           -

   NO  BK      LINE  FROM              TO                  WT              RESIDUAL   CONTROL   MOVES  BLAMES

BK      LINE  WORD  STATION                         LENGTH  SIGHTS    WEIGHT   MOVES  BLAMES

POINT                           HEIGHT  SIGHTS    WEIGHT  STRENGTH   MOVES  BLAMES
A                         100.00000000       0         0         -       -       -

notes                                  2
book 1 has no sight in 3 blocks (no word 33; it has words 32, 331 and 332)
benchmarks record 2: A was never observed
",
    ],
};

/// All points are benchmarks, so that each observation runs between two of them.
pub(crate) const BENCHMARKS_ALONE: Row = Row {
    texts: (TWO_SIGHTS, b"point,height\nA,100\nB,102\nX,5\n", b""),
    written: [
        b"point,height,low,high,strength
A,100.00000000,100.00000000,100.00000000,
B,102.00000000,102.00000000,102.00000000,
X,5.00000000,5.00000000,5.00000000,
",
        b"number,book,line,from,to,difference,weight,residual,control,mistake,moves,blames,blamed
1,1,2,A,B,2.54500000,1,0.54500000,,shows,,,
2,1,3,A,B,2.54700000,1,0.54700000,,shows,,,
",
        b"book,line,word,station,length,sights,weight,mistake,moves,blames,blamed
1,1,88,A,1.50000000,2,2,shows,,,
1,2,87,A,1.30000000,2,2,shows,,,
",
        b"point,height,sights,weight,strength,mistake,moves,blames,blamed
A,100.00000000,2,2,2,shows,,,
B,102.00000000,2,2,2,shows,,,
X,5.00000000,0,0,0,,,,
",
        b"HEIGHT NETWORK REVIEW
points                                 3
benchmarks                             3
observations                           2
loops                                  2
unchecked                              0
hidden                                 0
ties                                   0
entries                                2
weak entries                           0
weak benchmark                         0
weakest point                          -

BK     LINES    BLOCKS    SETUPS    SIGHTS
 1         3         3         1         2

book 1           163  b6fd07399ac6fef79a92fdfed6a6d38d38e729c22314cd5fd24f9b8399a4152a  monday.gsi
benchmarks        29  374cce43460a6996f84ca02a6435b4e1dce1da68b95fc65e3391dd782116a61f  marks.csv
weights            0  e3b0c44298fc1c149afbf4c8996fb92427ae41e4649b934ca495991b7852b855  weights.csv

largest                                2
blunder limit                 0.02000000
   NO  BK      LINE  FROM              TO                  WT              RESIDUAL   CONTROL
    2   1         3  A                 B                    1            0.54700000         -  *
    1   1         2  A                 B                    1            0.54500000         -  *

POINT                           HEIGHT              HIGH-LOW  STRENGTH  WITHSTANDS
A                         100.00000000            0.00000000         -           -
B                         102.00000000            0.00000000         -           -
X                           5.00000000            0.00000000         -           -

   NO  BK      LINE  FROM              TO                  WT              RESIDUAL   CONTROL   MOVES  BLAMES
    1   1         2  A                 B                    1            0.54500000         -       -       -
    2   1         3  A                 B                    1            0.54700000         -       -       -

BK      LINE  WORD  STATION                         LENGTH  SIGHTS    WEIGHT   MOVES  BLAMES
 1         1    88  A                           1.50000000       2         2       -       -
 1         2    87  A                           1.30000000       2         2       -       -

POINT                           HEIGHT  SIGHTS    WEIGHT  STRENGTH   MOVES  BLAMES
A                         100.00000000       2         2         2       -       -
B                         102.00000000       2         2         2       -       -
X                           5.00000000       0         0         0       -       -

notes                                  2
benchmarks record 4: X was never observed
a part of the network hangs on A and B: nothing says which is wrong
",
    ],
};

/// A book whose notes are of six kinds: `K01` was to be `KO1`.
pub(crate) const ODD: Row = Row {
    texts: (
        b"110001+0000000A 84..10+00000000 87..10+00001300 88..10+00001500\n110002+00000KO1 31..00+00000000 33..00+00000000\n110003+00000KO1 33..00+00002345 88..10+00001510\n110004+00000K01 84..10+00000000 87..10+00001300 88..10+00001500\n110005+0000000A 33..00-00000410\n110006+000000=B 33..00+00001000\n",
        A_AT_100,
        b"",
    ),
    written: [
        b"point,height,low,high,strength
A,100.00000000,100.00000000,100.00000000,
KO1,100.20000000,100.20000000,102.55500000,2
K01,100.21000000,100.21000000,100.21000000,1
=B,101.41000000,101.41000000,101.41000000,1
",
        b"number,book,line,from,to,difference,weight,residual,control,mistake,moves,blames,blamed
1,1,2,A,KO1,0.20000000,1,0.00000000,1,ties,1,1,2
2,1,3,A,KO1,2.55500000,1,2.35500000,1,ties,1,1,1
3,1,5,K01,A,-0.21000000,1,0.00000000,0,unchecked,2,0,
4,1,6,K01,=B,1.20000000,1,0.00000000,0,unchecked,1,0,
",
        b"book,line,word,station,length,sights,weight,mistake,moves,blames,blamed
1,1,87,A,1.30000000,2,2,unchecked,1,0,
1,1,88,A,1.50000000,1,1,ties,1,1,2
1,3,88,A,1.51000000,1,1,ties,1,1,1
1,4,87,K01,1.30000000,2,2,unchecked,1,0,
1,4,88,K01,1.50000000,2,2,unchecked,1,0,
",
        b"point,height,sights,weight,strength,mistake,moves,blames,blamed
A,100.00000000,3,3,,unchecked,3,0,
",
        b"HEIGHT NETWORK REVIEW
points                                 4
benchmarks                             1
observations                           4
loops                                  1
unchecked                              2
hidden                                 0
ties                                   2
entries                                5
weak entries                           5
weak benchmark                         1
weakest point                          1

BK     LINES    BLOCKS    SETUPS    SIGHTS
 1         6         6         2         4

book 1           288  8ee67de659f00f300f098193d4c62e2fac5b3c8e0d5d77c5540b07569f044935  monday.gsi
benchmarks        19  c15a70569a2e2d0025454e42e8ef947dc907df9de97213f74d4ed8795fbdba58  marks.csv
weights            0  e3b0c44298fc1c149afbf4c8996fb92427ae41e4649b934ca495991b7852b855  weights.csv

largest                                4
blunder limit                 0.02000000
   NO  BK      LINE  FROM              TO                  WT              RESIDUAL   CONTROL
    2   1         3  A                 KO1                  1            2.35500000         1  *
    1   1         2  A                 KO1                  1            0.00000000         1
    3   1         5  K01               A                    1            0.00000000         0
    4   1         6  K01               =B                   1            0.00000000         0

POINT                           HEIGHT              HIGH-LOW  STRENGTH  WITHSTANDS
A                         100.00000000            0.00000000         -           -
KO1                       100.20000000            2.35500000         2           0  =
K01                       100.21000000            0.00000000         1           0  1
=B                        101.41000000            0.00000000         1           0  1

   NO  BK      LINE  FROM              TO                  WT              RESIDUAL   CONTROL   MOVES  BLAMES
    1   1         2  A                 KO1                  1            0.00000000         1       1       1  =
    2   1         3  A                 KO1                  1            2.35500000         1       1       1  =
    3   1         5  K01               A                    1            0.00000000         0       2       0  0
    4   1         6  K01               =B                   1            0.00000000         0       1       0  0

BK      LINE  WORD  STATION                         LENGTH  SIGHTS    WEIGHT   MOVES  BLAMES
 1         1    87  A                           1.30000000       2         2       1       0  0
 1         1    88  A                           1.50000000       1         1       1       1  =
 1         3    88  A                           1.51000000       1         1       1       1  =
 1         4    87  K01                         1.30000000       2         2       1       0  0
 1         4    88  K01                         1.50000000       2         2       1       0  0

POINT                           HEIGHT  SIGHTS    WEIGHT  STRENGTH   MOVES  BLAMES
A                         100.00000000       3         3         -       3       0  0

notes                                  6
book 1 line 3: another instrument height than its setup
book 1 line 2: words 31 and 33 are both zero
a part of the network hangs on A alone: nothing checks its height
=B is sighted once (book 1 line 6)
K01 (book 1 line 5) is within 0.01000000 m of KO1
=B reads as a formula in a spreadsheet
",
    ],
};

/// A book of one sight and an empty one, over the weight of a pair that was observed the other way round.
pub(crate) const ONE_SIGHT_WRITTEN: Written = [
    b"point,height,low,high,strength
A,100.00000000,100.00000000,100.00000000,
B,102.54500000,102.54500000,102.54500000,1
",
    b"number,book,line,from,to,difference,weight,residual,control,mistake,moves,blames,blamed
1,1,2,A,B,2.54500000,1,0.00000000,0,unchecked,1,0,
",
    b"book,line,word,station,length,sights,weight,mistake,moves,blames,blamed
1,1,88,A,1.50000000,1,1,unchecked,1,0,
1,2,87,A,1.30000000,1,1,unchecked,1,0,
",
    b"point,height,sights,weight,strength,mistake,moves,blames,blamed
A,100.00000000,1,1,,unchecked,1,0,
",
    b"HEIGHT NETWORK REVIEW
points                                 2
benchmarks                             1
observations                           1
loops                                  0
unchecked                              1
hidden                                 0
ties                                   0
entries                                2
weak entries                           2
weak benchmark                         1
weakest point                          1

BK     LINES    BLOCKS    SETUPS    SIGHTS
 1         2         2         1         1
 2         0         0         0         0

book 1           130  4b8d799aca3b2f40c2a8c580f5a427bfddb029e3f41f12b4505e14f325e08955  monday.gsi
book 2             0  e3b0c44298fc1c149afbf4c8996fb92427ae41e4649b934ca495991b7852b855  none.gsi
benchmarks        19  c15a70569a2e2d0025454e42e8ef947dc907df9de97213f74d4ed8795fbdba58  marks.csv
weights           21  25342a3d84e0c31ca539d7c2a9b326eb2dbf6a51e13c8d5e1a0fe0bbe69eb97e  weights.csv

largest                                1
blunder limit                 0.02000000
   NO  BK      LINE  FROM              TO                  WT              RESIDUAL   CONTROL
    1   1         2  A                 B                    1            0.00000000         0

POINT                           HEIGHT              HIGH-LOW  STRENGTH  WITHSTANDS
A                         100.00000000            0.00000000         -           -
B                         102.54500000            0.00000000         1           0  1

   NO  BK      LINE  FROM              TO                  WT              RESIDUAL   CONTROL   MOVES  BLAMES
    1   1         2  A                 B                    1            0.00000000         0       1       0  0

BK      LINE  WORD  STATION                         LENGTH  SIGHTS    WEIGHT   MOVES  BLAMES
 1         1    88  A                           1.50000000       1         1       1       0  0
 1         2    87  A                           1.30000000       1         1       1       0  0

POINT                           HEIGHT  SIGHTS    WEIGHT  STRENGTH   MOVES  BLAMES
A                         100.00000000       1         1         -       1       0  0

notes                                  3
weights record 2: B to A was never observed, but A to B was
a part of the network hangs on A alone: nothing checks its height
B is sighted once (book 1 line 2)
",
];
