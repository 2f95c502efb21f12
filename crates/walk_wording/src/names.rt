// The rules by their names.
use rules::places::{
    AT_D0, AT_D1, AT_D2, AT_DEL1, AT_DEL2, AT_DEL3, AT_E1, AT_E2, AT_E3, AT_E4, AT_E5, AT_E6,
    AT_E7, AT_F1, AT_F2, AT_F3, AT_F4, AT_F5, AT_F6, AT_F7, AT_FOLD, AT_M1, AT_M2, AT_M3, AT_M4,
    AT_M5, AT_M6, AT_M7, AT_M10, AT_M11, AT_M12, AT_R1, AT_R2,
};

fn of_one(rule: usize) -> &'static str {
    match rule {
        AT_R1 => "R1",
        AT_R2 => "R2",
        AT_FOLD => "fold",
        AT_F1 => "F1",
        AT_F2 => "F2",
        AT_F3 => "F3",
        AT_F4 => "F4",
        AT_F5 => "F5",
        AT_F6 => "F6",
        _ => "F7",
    }
}

fn of_equations(rule: usize) -> &'static str {
    match rule {
        AT_DEL1 => "Del1",
        AT_DEL2 => "Del2",
        AT_DEL3 => "Del3",
        AT_D1 => "D1",
        AT_D2 => "D2",
        AT_D0 => "D0",
        AT_E1 => "E1",
        AT_E2 => "E2",
        AT_E3 => "E3",
        AT_E4 => "E4",
        AT_E5 => "E5",
        AT_E6 => "E6",
        _ => "E7",
    }
}

fn of_memberships(rule: usize) -> &'static str {
    match rule {
        AT_M1 => "M1",
        AT_M2 => "M2",
        AT_M3 => "M3",
        AT_M4 => "M4",
        AT_M5 => "M5",
        AT_M6 => "M6",
        AT_M7 => "M7",
        AT_M10 => "M10",
        AT_M11 => "M11",
        AT_M12 => "M12",
        _ => "clash",
    }
}

// The name of the rule of a place in the list.
pub(crate) fn rule_name(rule: usize) -> &'static str {
    if rule <= AT_F7 {
        return of_one(rule);
    }
    if rule <= AT_E7 {
        return of_equations(rule);
    }
    of_memberships(rule)
}
