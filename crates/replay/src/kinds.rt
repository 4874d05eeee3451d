// The kinds of lines: the fourteen questions, the three lines that set a map, comments, and whatever else there may be,
// which is malformed.

#[derive(Clone, Copy)]
pub enum Kind {
    Ray,
    Scan,
    Free,
    Occupied,
    Set,
    Begin,
    Reset,
    Read,
    Cell,
    Stencil,
    Sample,
    Clip,
    Line,
    Truncate,
    Map,
    Odds,
    Stamps,
    Comment,
    Malformed,
}

impl Kind {
    // How many there are, and how many of them, the first, are questions.
    pub const COUNT: usize = 19;

    pub const QUESTIONS: usize = 14;

    // Their names on the page, in their order.
    pub const NAMES: [&'static str; Kind::COUNT] = [
        "ray",
        "scan",
        "free",
        "occupied",
        "set",
        "begin",
        "reset",
        "read",
        "cell",
        "stencil",
        "sample",
        "clip",
        "line",
        "truncate",
        "map",
        "odds",
        "stamps",
        "comment",
        "malformed",
    ];

    // The kind of a line that begins with this word.
    pub fn of(word: &[u8]) -> Kind {
        match word {
            b"ray" => Kind::Ray,
            b"scan" => Kind::Scan,
            b"free" => Kind::Free,
            b"occupied" => Kind::Occupied,
            b"set" => Kind::Set,
            b"begin" => Kind::Begin,
            b"reset" => Kind::Reset,
            b"read" => Kind::Read,
            b"cell" => Kind::Cell,
            b"stencil" => Kind::Stencil,
            b"sample" => Kind::Sample,
            b"clip" => Kind::Clip,
            b"line" => Kind::Line,
            b"truncate" => Kind::Truncate,
            b"map" => Kind::Map,
            b"odds" => Kind::Odds,
            b"stamps" => Kind::Stamps,
            b"#" => Kind::Comment,
            _ => Kind::Malformed,
        }
    }
}
