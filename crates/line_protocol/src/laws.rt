//! Laws of the grammar.
ghost use Rattle.std.specs.Prelude.{◌≡◌, ◌<◌, ◌∷◌, ℕ, List, [], All, codes, Ok, Err, Some, None};
ghost use Rattle.key_bytes.specs.declared.bound.Bound.TheVariants.{Low, At};
ghost use Rattle.line_protocol.specs.Escape.{escape, unescape, IsEscaped, IsWordByte};
ghost use Rattle.line_protocol.specs.ReplyLine.{IsOneLine};
ghost use Rattle.line_protocol.specs.Requests.{request, IsRequest};
ghost use Rattle.line_protocol.specs.RequestText.{request_text};
ghost use Rattle.line_protocol.specs.Texts.{text, pair_line};
ghost use Rattle.line_protocol.specs.declared.answer.Answer.{Answer};
ghost use Rattle.line_protocol.specs.declared.fault.Fault.TheVariants.{Command, Words, Key as KeyFault, Limit};
ghost use Rattle.line_protocol.specs.declared.fault.RequestFault.TheVariants.{Fault};
ghost use Rattle.line_protocol.specs.declared.request.Request.{Request};
ghost use Rattle.line_protocol.specs.declared.request.Request.TheVariants.{Put, Get, Scan, Quit};

/// Bytes that were written as a word are read again.
pub fn unescape_again()
    ensures { (bytes : List ℕ) → All (λ b. b < 256) bytes → unescape (escape bytes) ≡ bytes }
{}

/// A word has no space, no end of a line and no `*`, and each of its `%` begins an escape.
pub fn escaped_words()
    ensures bytes { (bytes : List ℕ) → All (λ b. b < 256) bytes → All IsWordByte (escape bytes) }
    ensures form { (bytes : List ℕ) → All (λ b. b < 256) bytes → IsEscaped (escape bytes) }
{}

/// A request that was written as a line is read again.
pub fn request_again()
    ensures { (asks : Request) → IsRequest asks → request (request_text asks) ≡ Ok (Some asks) }
{}

/// A reply has one LF, which is its end.
pub fn one_line()
    ensures answers { (answer : Answer) → IsOneLine (text answer) }
    ensures pairs { (key value : List ℕ) → IsOneLine (pair_line key value) }
{}

/// What some lines ask.
pub fn worked_lines()
    ensures empty { request [] ≡ Ok None }
    ensures escapes { request (codes "PUT %zz *") ≡ Ok (Some (Put (codes "%zz") (codes "*"))) }
    ensures escaped { request (codes "GET %25zz") ≡ Ok (Some (Get (codes "%zz"))) }
    ensures bytes { request (codes "PUT %00 %fF") ≡ Ok (Some (Put (0 ∷ []) (255 ∷ []))) }
    ensures no_value { request (codes "PUT a ") ≡ Ok (Some (Put (codes "a") [])) }
    ensures small { request (codes "get a") ≡ Err (Fault Command) }
    ensures no_words { request (codes "GET") ≡ Err (Fault Words) }
    ensures no_key { request (codes "GET ") ≡ Err (Fault KeyFault) }
    ensures no_limit { request (codes "SCAN a b x") ≡ Err (Fault Limit) }
    ensures high_limit { request (codes "SCAN a b 1000001") ≡ Err (Fault Limit) }
    ensures scan { request (codes "SCAN * b 0000010") ≡ Ok (Some (Scan Low (At (codes "b")) 10)) }
    ensures quit_now { request (codes "QUIT now") ≡ Err (Fault Words) }
    ensures quit { request (codes "QUIT") ≡ Ok (Some Quit) }
{}
