//! Laws of spelling: each line is read in one way, and each request has a line.
ghost use Rattle.std.specs.Prelude.{◌≡◌, ◌≢◌, ◌≤◌, ℕ, List, length, Result, Ok, Err};
ghost use Rattle.hub_requests.specs.declared.request.Request.{Request};
ghost use Rattle.hub_requests.specs.declared.reply.Refusal.{Refusal};
ghost use Rattle.hub_requests.specs.Ranges.{IsInRange};
ghost use Rattle.hub_protocol.specs.Spelling.{Form, IsForm, IsSoundForm, IsWithin, spelling, form_of, request_from};
ghost use Rattle.hub_protocol.specs.Reading.{HasForm, Spells, IsReading, first_word};

/// No line spells two forms, and so no line spells two requests: a request is made again from its form.
pub fn no_line_is_spelled_twice()
    ensures forms { (line : List ℕ) (a b : Form) → HasForm line a → HasForm line b → a ≡ b }
    ensures requests { (line : List ℕ) (a b : Request) → Spells line a → Spells line b → a ≡ b }
    ensures remade { (request : Request) → request_from (form_of request) ≡ request }
{}

/// Unless memory runs out, a line is read in one way.
pub fn each_line_is_read_in_one_way()
    ensures { (line : List ℕ) (a b : Result Request Refusal)
        → a ≢ Err Refusal.Memory → b ≢ Err Refusal.Memory
        → IsReading line a → IsReading line b → a ≡ b }
{}

/// Each sound request has a form, and each form has a line, which begins with its word. If the line isn't too long, it is
/// read as the form's request, or as out of range.
pub fn each_form_has_a_line()
    ensures formed { (request : Request)
        → IsSoundForm (form_of request) → IsForm (form_of request) }
    ensures word { (form : Form) → IsForm form → first_word (spelling form) ≡ form.word }
    ensures within { (request : Request) → IsForm (form_of request) → IsInRange request
        → length (spelling (form_of request)) ≤ 512 → Spells (spelling (form_of request)) request }
    ensures beyond { (form : Form) → IsForm form → (IsWithin form → ⊥)
        → length (spelling form) ≤ 512 → IsReading (spelling form) (Err Refusal.Range) }
{}

/// Unless memory runs out, the line of a request is read as that request, if it isn't too long and the request is in
/// range.
pub fn each_request_is_read_as_itself()
    ensures { (request : Request) (read : Result Request Refusal) → IsSoundForm (form_of request)
        → IsInRange request → length (spelling (form_of request)) ≤ 512 → read ≢ Err Refusal.Memory
        → IsReading (spelling (form_of request)) read → read ≡ Ok request }
{}
