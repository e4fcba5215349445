//! Small problems as texts.

/// Three things of which as much as three rows allow is taken.
pub const KNAPSACK: &[u8] = b"OBJSENSE MAX
ROWS
 N Z
 L P
 L Q
 L R
COLUMNS
 M 'MARKER' 'INTORG'
 A Z 5 P 2
 A Q 4 R 3
 B Z 4 P 3
 B Q 1 R 4
 C Z 3 P 1
 C Q 2 R 2
RHS
 S P 5 Q 11
 S R 8
BOUNDS
 UP S A 10
 UP S B 10
 UP S C 10
ENDATA
";

/// The texts of small problems begin so: their least or their greatest value is needed, and three
/// rows are satisfied.
pub const HEADS: &[&str] = &[
    "ROWS\n N Z\n L P\n G Q\n E R\nCOLUMNS\n M 'MARKER' 'INTORG'\n",
    "OBJSENSE MAX\nROWS\n N Z\n L P\n L Q\n G R\nCOLUMNS\n M 'MARKER' 'INTORG'\n",
];

/// What their columns X, Y and W have in the objective and the rows.
pub const COLUMNS: &[&str] = &[
    " X Z 3 P 2\n X Q 1 R 1\n Y Z -2 P -3\n Y Q 2 R 1\n W Z 1 P 1\n W Q -1 R 1\n",
    " X Z -5 P 4\n X Q -3 R 2\n Y Z 7 P 5\n Y Q 6\n W Q 2 R -3\n",
    " X Z 1\n Y P 3 Q -2\n Y R 5\n W Z -1 P -2\n W Q 3 R -4\n",
    " X Z -1 P 1\n X Q 1\n Y Z 2 P 1\n Y R 2\n W Z -3 Q 1\n W R 2\n",
];

/// The sides of their rows. Seven of the eight problems with the second have no feasible point.
pub const SIDES: &[&str] = &[
    "RHS\n S P 12 Q 2\n S R 2\n",
    "RHS\n S P -4 Q 3\n S R -1\n",
    "RHS\n S Z 9 P 8\n S R 2\n",
    "RHS\n S P 4\n",
];

/// The bounds of their columns.
pub const BOUNDS: &str = "BOUNDS\n UP B X 4\n UP B Y 5\n UP B W 3\nENDATA\n";
