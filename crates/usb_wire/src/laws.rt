//! The theorem on lines that no call says of itself.
ghost use Rattle.std.specs.Prelude.{ℕ};
ghost use Rattle.usb_wire.specs.Answers.{IsSaidLine, MaySay, said_line};
ghost use Rattle.usb_wire.specs.Questions.{IsQuestion, IsQuestionLine, question_line};
ghost use Rattle.usb_wire.specs.declared.answer.Said.{Said as ASaid};
ghost use Rattle.usb_wire.specs.declared.question.Asked.{Asked as AnAsked};
ghost use Rattle.usb_wire.specs.declared.question.Question.{Question as AQuestion};

/// What may be asked, and what may be said to it, is in the line that is written of it: so it is
/// what `read_question` and `read_said` read there.
pub fn lines_are_read_back()
    ensures asked { (question : AQuestion)
        → IsQuestion question → IsQuestionLine (question_line question) question }
    ensures said { (asked : AnAsked) (roots : ℕ) (said : ASaid)
        → MaySay asked roots said → IsSaidLine (said_line said) said }
{}
