//! The rules of the table, with their names.

ghost use Rattle.std.specs.Prelude.{◌≡◌, ◌≢◌, IfSome, IfNone, Some};
ghost use Rattle.jc_rules.specs.declared.rule.Rule.{Rule as AnyRule};
ghost use Rattle.jc_rules.specs.RuleNames.{rule_name};

use std::fmt;

/// A rule of the table.
#[derive(Clone, Copy, PartialEq, Eq)]
pub enum Rule {
    Exec,
    Let,
    Var,
    Doc,
    Get,
    Idx1,
    Idx2,
    Idx3,
    Idx4,
    Idx5,
    Keys1,
    Keys2,
    Keys3,
    Val1,
    Val2,
    Val3,
    MakeAssign,
    MakeInsert,
    MakeDelete,
    MakeOp,
    ApplyLocal,
    Send,
    Recv,
    RecvOne,
    ApplyRemote,
    Done,
    Descend,
    ChildGet,
    ChildMap,
    ChildList,
    ChildReg,
    AddId1,
    AddId2,
    Presence1,
    Presence2,
    Assign,
    EmptyMap,
    EmptyList,
    Insert1,
    Insert2,
    Delete,
    ClearElem,
    ClearAny,
    ClearNone,
    ClearReg,
    ClearMap1,
    ClearMap2,
    ClearMap3,
    ClearList1,
    ClearList2,
    ClearList3,
}

/// Every rule, in the order of the table.
const RULES: [Rule; 51] = [
    Rule::Exec,
    Rule::Let,
    Rule::Var,
    Rule::Doc,
    Rule::Get,
    Rule::Idx1,
    Rule::Idx2,
    Rule::Idx3,
    Rule::Idx4,
    Rule::Idx5,
    Rule::Keys1,
    Rule::Keys2,
    Rule::Keys3,
    Rule::Val1,
    Rule::Val2,
    Rule::Val3,
    Rule::MakeAssign,
    Rule::MakeInsert,
    Rule::MakeDelete,
    Rule::MakeOp,
    Rule::ApplyLocal,
    Rule::Send,
    Rule::Recv,
    Rule::RecvOne,
    Rule::ApplyRemote,
    Rule::Done,
    Rule::Descend,
    Rule::ChildGet,
    Rule::ChildMap,
    Rule::ChildList,
    Rule::ChildReg,
    Rule::AddId1,
    Rule::AddId2,
    Rule::Presence1,
    Rule::Presence2,
    Rule::Assign,
    Rule::EmptyMap,
    Rule::EmptyList,
    Rule::Insert1,
    Rule::Insert2,
    Rule::Delete,
    Rule::ClearElem,
    Rule::ClearAny,
    Rule::ClearNone,
    Rule::ClearReg,
    Rule::ClearMap1,
    Rule::ClearMap2,
    Rule::ClearMap3,
    Rule::ClearList1,
    Rule::ClearList2,
    Rule::ClearList3,
];

impl Rule {
    /// The rule's name, as traces show it.
    pub fn name(self) -> &'static str
        ensures { result.now ≡ rule_name self }
    {
        match self {
            Rule::Exec => "EXEC",
            Rule::Let => "LET",
            Rule::Var => "VAR",
            Rule::Doc => "DOC",
            Rule::Get => "GET",
            Rule::Idx1 => "IDX1",
            Rule::Idx2 => "IDX2",
            Rule::Idx3 => "IDX3",
            Rule::Idx4 => "IDX4",
            Rule::Idx5 => "IDX5",
            Rule::Keys1 => "KEYS1",
            Rule::Keys2 => "KEYS2",
            Rule::Keys3 => "KEYS3",
            Rule::Val1 => "VAL1",
            Rule::Val2 => "VAL2",
            Rule::Val3 => "VAL3",
            Rule::MakeAssign => "MAKE-ASSIGN",
            Rule::MakeInsert => "MAKE-INSERT",
            Rule::MakeDelete => "MAKE-DELETE",
            Rule::MakeOp => "MAKE-OP",
            Rule::ApplyLocal => "APPLY-LOCAL",
            Rule::Send => "SEND",
            Rule::Recv => "RECV",
            Rule::RecvOne => "RECV-ONE",
            Rule::ApplyRemote => "APPLY-REMOTE",
            Rule::Done => "DONE",
            Rule::Descend => "DESCEND",
            Rule::ChildGet => "CHILD-GET",
            Rule::ChildMap => "CHILD-MAP",
            Rule::ChildList => "CHILD-LIST",
            Rule::ChildReg => "CHILD-REG",
            Rule::AddId1 => "ADD-ID1",
            Rule::AddId2 => "ADD-ID2",
            Rule::Presence1 => "PRESENCE1",
            Rule::Presence2 => "PRESENCE2",
            Rule::Assign => "ASSIGN",
            Rule::EmptyMap => "EMPTY-MAP",
            Rule::EmptyList => "EMPTY-LIST",
            Rule::Insert1 => "INSERT1",
            Rule::Insert2 => "INSERT2",
            Rule::Delete => "DELETE",
            Rule::ClearElem => "CLEAR-ELEM",
            Rule::ClearAny => "CLEAR-ANY",
            Rule::ClearNone => "CLEAR-NONE",
            Rule::ClearReg => "CLEAR-REG",
            Rule::ClearMap1 => "CLEAR-MAP1",
            Rule::ClearMap2 => "CLEAR-MAP2",
            Rule::ClearMap3 => "CLEAR-MAP3",
            Rule::ClearList1 => "CLEAR-LIST1",
            Rule::ClearList2 => "CLEAR-LIST2",
            Rule::ClearList3 => "CLEAR-LIST3",
        }
    }

    /// The rule with the name, if there is one.
    pub fn of_name(name: &str) -> Option<Rule>
        ensures named { IfSome result (λ rule. rule_name rule ≡ name.now) }
        ensures unknown { IfNone result ((rule : AnyRule) → rule_name rule ≢ name.now) }
    {
        for rule in RULES {
            if rule.name() == name {
                return Some(rule);
            }
        }
        None
    }
}

// By its name: a derived match of every variant is dear to prove.
impl fmt::Debug for Rule {
    ghost debug_output = { λ rule. Some (rule_name rule) };

    fn fmt<W: fmt::Write>(&self, f: &mut fmt::Formatter<W>) -> fmt::Result {
        f.write_str(self.name())
    }
}
