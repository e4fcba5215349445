//! The texts of the problems.

// 5 A + 4 B + 3 C is maximised under three rows.
pub const KNAPSACK: &[u8] = b"OBJSENSE
 MAX
ROWS
 N Z
 L P
 L Q
 L R
COLUMNS
 M 'MARKER' 'INTORG'
 A Z 5 P 2
 A Q 4 R 3
 B Z 4 P 3
 B Q 1 R 4
 C Z 3 P 1
 C Q 2 R 2
RHS
 S P 5 Q 11
 S R 8
BOUNDS
 UP D A 10
 UP D B 10
 UP D C 10
ENDATA
";

// Each two of three have one of them.
pub const COVER: &[u8] = b"ROWS
 N Z
 G P
 G Q
 G R
COLUMNS
 M 'MARKER' 'INTORG'
 x Z 1 P 1
 x R 1
 y Z 1 P 1
 y Q 1
 w Z 1 Q 1
 w R 1
RHS
 P 1 Q 1
 R 1
BOUNDS
 UP D x 1
 UP D y 1
 UP D w 1
ENDATA
";

// x + 2 y is from 3 to 6, 2 x - y + 4 is minimised.
pub const RANGED: &[u8] = b"ROWS
 N Z
 L r
COLUMNS
 M 'MARKER' 'INTORG'
 x Z 2 r 1
 y Z -1 r 2
RHS
 Z -4 r 6
RANGES
 r 3
BOUNDS
 LO D x -2
 UP D x 3
 LO D y -2
 UP D y 3
ENDATA
";

// One column of a great coefficient.
pub const WIDE: &[u8] = b"ROWS
 N Z
 L r
COLUMNS
 M 'MARKER' 'INTORG'
 x Z 1 r 1e24
RHS
 r 0
BOUNDS
 UP D x 1000000000
ENDATA
";

// One column of a great coefficient in the objective.
pub const COSTLY: &[u8] = b"ROWS
 N Z
 G r
COLUMNS
 M 'MARKER' 'INTORG'
 x Z 1e24 r 1
RHS
 r 1
BOUNDS
 UP D x 1000000000
ENDATA
";

// 6 x + 4 y + 9 w is from 3 to 21.
pub const STEPS: &[u8] = b"ROWS
 N Z
 L r
COLUMNS
 M 'MARKER' 'INTORG'
 x Z 1 r 6
 y r 4
 w r 9
RHS
 r 21
RANGES
 r 18
BOUNDS
 UP D x 3
 UP D y 3
 UP D w 3
ENDATA
";

// 2 x + 2 y + 2 w is 7.
pub const ODD_SUM: &[u8] = b"ROWS
 N Z
 E r
COLUMNS
 M 'MARKER' 'INTORG'
 x Z 1 r 2
 y r 2
 w r 2
RHS
 r 7
BOUNDS
 UP D x 3
 UP D y 3
 UP D w 3
ENDATA
";
