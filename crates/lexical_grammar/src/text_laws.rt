//! What a reader would ask of the lexical grammar, in the words of the subject. Each function does
//! nothing, and stands for the law that its contract states, over `Cuts`, `Breaks` and `step`.

ghost use Rattle.std.specs.Prelude.{◌≡◌, ◌≢◌, ◌⊎◌, ◌∷◌, ◌++◌, ◌+◌, ◌≤◌, ℕ, true, false, List, [], length, codes, Some, None};
ghost use Rattle.php_syntax.specs.Tokens.{PlainToken, text, inline, sign};
ghost use Rattle.lexical_grammar.specs.Characters.{begins};
ghost use Rattle.php_syntax.specs.Spelling.{spelling_of};
ghost use Rattle.lexical_grammar.specs.Signs.{sign_step};
ghost use Rattle.php_syntax.specs.declared.token.Sign.{Sign};
ghost use Rattle.php_syntax.specs.declared.token.Sign.TheVariants as signs;
ghost use Rattle.lexical_grammar.specs.Steps.{inside, outside, goes, gives};
ghost use Rattle.lexical_grammar.specs.declared.fault.LexicalFault.{LexicalFault};
ghost use Rattle.lexical_grammar.specs.Cuts.{step, is_opener, ends_line, Cuts, Breaks};
ghost use Rattle.lexical_grammar.specs.Pieces.{Piece, joined, placed, ArePieces, Rise, BeginsNot};
ghost use Rattle.lexical_grammar.specs.Quoting.{Quotes, HasNoMark};

/// Each file is cut into tokens or breaks the grammar.
pub fn cut_or_broken()
    ensures { (file : List ℕ) → ((tokens : List PlainToken) × Cuts file tokens)
        ⊎ ((fault : LexicalFault) × (at : ℕ) × Breaks file fault at) }
{}

/// What spells the tokens and what is passed over between them, joined, are the file; each token
/// stands where its spelling begins; names are longest runs, integers have the value of their
/// digits, and no opener stands in an inline token. Of the spelling of other kinds it says nothing.
pub fn pieces_are_the_file()
    ensures { (file : List ℕ) (tokens : List PlainToken) → Cuts file tokens →
        (pieces : List Piece) × (joined pieces ≡ file) × (placed 0 pieces ≡ tokens)
        × ArePieces pieces }
{}

/// Each token stands behind the one before it.
pub fn places_rise()
    ensures { (file : List ℕ) (tokens : List PlainToken) → Cuts file tokens → Rise 0 tokens }
{}

/// The sign that is read is the longest one that the bytes begin with.
pub fn longest_sign()
    ensures found { (bytes : List ℕ) (x : Sign) (n : ℕ) → sign_step bytes ≡ gives (sign x) n →
        (begins (spelling_of x) bytes ≡ true) × (n ≡ length (spelling_of x)) }
    ensures longest { (bytes : List ℕ) (x y : Sign) (n : ℕ) → sign_step bytes ≡ gives (sign x) n →
        y ≢ signs.CastInt → y ≢ signs.CastString → begins (spelling_of y) bytes ≡ true
        → length (spelling_of y) ≤ n }
    ensures none { (bytes : List ℕ) (y : Sign) → sign_step bytes ≡ None →
        y ≢ signs.CastInt → y ≢ signs.CastString → begins (spelling_of y) bytes ≡ false }
{}

/// A comment in `/*` and `*/` ends at the first `*/`.
pub fn comment_ends_first()
    ensures { (inner rest : List ℕ) → BeginsNot (begins (codes "*/")) inner (codes "*/" ++ rest) →
        step inside (codes "/*" ++ (inner ++ (codes "*/" ++ rest))) ≡ goes None (4 + length inner) inside }
{}

/// A comment of one line ends before the first line end or `?>`, or with the file.
pub fn line_comment_ends_first()
    ensures { (inner rest : List ℕ) → BeginsNot ends_line inner rest → (rest ≡ [])
        ⊎ (ends_line rest ≡ true) →
        step inside (codes "//" ++ (inner ++ rest)) ≡ goes None (2 + length inner) inside }
{}

/// A text in single quotes is read as what its quoting stands for.
pub fn quoted_text()
    ensures { (t bytes rest : List ℕ) → Quotes t bytes →
        step inside (39 ∷ (bytes ++ (39 ∷ rest))) ≡ goes (Some (text t)) (2 + length bytes) inside }
{}

/// A text in double quotes without a quote, backslash, `$` or `{` in it is read as its bytes.
pub fn plain_double_quoted_text()
    ensures { (bytes rest : List ℕ) → HasNoMark bytes →
        step inside (34 ∷ (bytes ++ (34 ∷ rest)))
        ≡ goes (Some (text bytes)) (2 + length bytes) inside }
{}

/// A file in which no opener stands is one inline token.
pub fn without_opener()
    ensures { (b : ℕ) (file : List ℕ) → BeginsNot is_opener (b ∷ file) [] →
        Cuts (b ∷ file) (record { kind = inline (b ∷ file); at = 0 } ∷ []) }
{}

/// The tag that leaves PHP is a semicolon, and takes the line end behind it with it.
pub fn leaving_tag()
    ensures lf { (rest : List ℕ) → step inside (codes "?>\n" ++ rest)
        ≡ goes (Some (sign signs.Semicolon)) 3 outside }
    ensures crlf { (rest : List ℕ) → step inside (codes "?>\r\n" ++ rest)
        ≡ goes (Some (sign signs.Semicolon)) 4 outside }
{}
