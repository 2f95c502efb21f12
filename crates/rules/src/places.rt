// The place of each rule in their list: every place is the one after the place before it, so that a rule put into the list shifts the rest.
pub const AT_R1: usize = 0;

pub const AT_R2: usize = AT_R1 + 1;

pub const AT_FOLD: usize = AT_R2 + 1;

pub const AT_F1: usize = AT_FOLD + 1;

pub const AT_F2: usize = AT_F1 + 1;

pub const AT_F3: usize = AT_F2 + 1;

pub const AT_F4: usize = AT_F3 + 1;

pub const AT_F5: usize = AT_F4 + 1;

pub const AT_F6: usize = AT_F5 + 1;

pub const AT_F7: usize = AT_F6 + 1;

pub const AT_DEL1: usize = AT_F7 + 1;

pub const AT_DEL2: usize = AT_DEL1 + 1;

pub const AT_DEL3: usize = AT_DEL2 + 1;

pub const AT_D1: usize = AT_DEL3 + 1;

pub const AT_D2: usize = AT_D1 + 1;

pub const AT_D0: usize = AT_D2 + 1;

pub const AT_E1: usize = AT_D0 + 1;

pub const AT_E2: usize = AT_E1 + 1;

pub const AT_E3: usize = AT_E2 + 1;

pub const AT_E4: usize = AT_E3 + 1;

pub const AT_E5: usize = AT_E4 + 1;

pub const AT_E6: usize = AT_E5 + 1;

pub const AT_E7: usize = AT_E6 + 1;

pub const AT_M1: usize = AT_E7 + 1;

pub const AT_M2: usize = AT_M1 + 1;

pub const AT_M3: usize = AT_M2 + 1;

pub const AT_M4: usize = AT_M3 + 1;

pub const AT_M5: usize = AT_M4 + 1;

pub const AT_M6: usize = AT_M5 + 1;

pub const AT_M7: usize = AT_M6 + 1;

pub const AT_M10: usize = AT_M7 + 1;

pub const AT_M11: usize = AT_M10 + 1;

pub const AT_M12: usize = AT_M11 + 1;

pub const AT_CLASH: usize = AT_M12 + 1;

// No rule applies: the place after the last.
pub const NO_RULE: usize = AT_CLASH + 1;

// A rule of two literals stops the run.
pub const STOPS: usize = NO_RULE + 1;
