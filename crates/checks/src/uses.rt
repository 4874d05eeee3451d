// What each entry uses of a map's head beside its extents, which all use.

// What an entry uses of a head beside its extents.
#[derive(Clone, Copy)]
pub struct Uses {
    pub model: bool,
    pub odds: bool,
    pub stamps: bool,
    pub frame: bool,
}

// What each entry uses: the requirements' "Extents are used by all; the model by ..".
impl Uses {
    pub const NEW: Uses = Uses {
        model: true,
        odds: true,
        stamps: true,
        frame: false,
    };

    pub const RESET: Uses = Uses {
        model: false,
        odds: true,
        stamps: true,
        frame: false,
    };

    pub const BEGIN_SCAN: Uses = Uses {
        model: false,
        odds: false,
        stamps: true,
        frame: false,
    };

    pub const MARKS_AND_BEAMS: Uses = Uses {
        model: true,
        odds: true,
        stamps: true,
        frame: true,
    };

    pub const SET_LOG_ODDS: Uses = Uses {
        model: true,
        odds: true,
        stamps: false,
        frame: false,
    };

    pub const CELL_READS: Uses = Uses {
        model: false,
        odds: true,
        stamps: false,
        frame: false,
    };

    pub const SAMPLES: Uses = Uses {
        model: false,
        odds: true,
        stamps: false,
        frame: false,
    };

    pub const CELL_CONTAINING: Uses = Uses {
        model: false,
        odds: false,
        stamps: false,
        frame: false,
    };

    pub const WRITING: Uses = Uses {
        model: true,
        odds: true,
        stamps: false,
        frame: true,
    };
}
