//! Laws of tokens and lexical faults, for the layers above: a text has one list of tokens or one fault, not both.
//! A string spells one content, which is UTF-8 where the text is.

ghost use Rattle.std.specs.Prelude.{◌≡◌, ◌≤◌, ◌⊎◌, List, ℕ, length, IsUtf8};
ghost use Rattle.jc_rules.specs.declared.limits.TheConstants.{MAX_STRING};
ghost use Rattle.jc_syntax.specs.declared.fault.LexFault.{LexFault as AnyFault};
ghost use Rattle.jc_syntax.specs.declared.token.Token.{Token as AnyToken};
ghost use Rattle.jc_syntax.specs.Lexemes.{AreTokensOf, IsFaultOf, IsStringToken, token_content};
ghost use Rattle.jc_syntax.specs.Strings.{IsString};

/// A text has at most one list of tokens.
pub fn one_list_of_tokens()
    ensures { (text : List ℕ) (ts us : List AnyToken) → AreTokensOf text ts → AreTokensOf text us → ts ≡ us }
{}

/// A text has at most one fault.
pub fn one_fault()
    ensures { (text : List ℕ) (e f : AnyFault) → IsFaultOf text e → IsFaultOf text f → e ≡ f }
{}

/// A text that has tokens has no fault.
pub fn tokens_or_fault()
    ensures { (text : List ℕ) (ts : List AnyToken) (e : AnyFault) → AreTokensOf text ts → IsFaultOf text e → ⊥ }
{}

/// A text that has no tokens has a fault.
pub fn tokens_else_fault()
    ensures { (text : List ℕ)
        → ((ts : List AnyToken) × AreTokensOf text ts) ⊎ ((e : AnyFault) × IsFaultOf text e) }
{}

/// The string that begins at an offset ends at one offset, and spells one content.
pub fn one_string()
    ensures { (text : List ℕ) (quote p q : ℕ) (c d : List ℕ)
        → IsString text quote p c → IsString text quote q d
        → (p ≡ q) × (c ≡ d) }
{}

/// What a string of a UTF-8 text spells is UTF-8, of at most 65,535 bytes.
pub fn legal_strings()
    ensures { (text : List ℕ) (t : AnyToken)
        → IsUtf8 text → IsStringToken text t
        → IsUtf8 (token_content text t) × (length (token_content text t) ≤ MAX_STRING) }
{}
