// What is no event of a host is nothing to its kernel.
ghost use Rattle.std.specs.Prelude.{ℕ, List, ◌++◌};
ghost use Rattle.vm_model.specs.declared.event.Event.{Event};
ghost use Rattle.vm_model.specs.declared.script.Header.{Header};
ghost use Rattle.vm_legal.specs.Frames.{Suffice};
ghost use Rattle.vm_legal.specs.Outside.{Outside};
ghost use Rattle.vm_legal.specs.Prompt.{PromptAt};
ghost use Rattle.vm_legal.specs.Stretches.{EachIn, MomentsIn};
ghost use Rattle.vm_abroad.specs.Sound.{IsAbroad, Sound};
ghost use Rattle.vm_shadow.specs.declared.ids.Ids.{Ids};
ghost use Rattle.vm_kernel.specs.Abroad.{IsCommon};
ghost use Rattle.vm_kernel.specs.Matches.{Rests};
ghost use Rattle.vm_kernel.specs.Serving.{HasQueue};
ghost use Rattle.vm_kernel.specs.declared.parts.Parts.{Parts};

/// What is no event of a host leaves what its kernel stands for: its parts, its frame queue, and that
/// nobody of the host waits in vain; nor does it take a frame there.
#[tactic(auto, using(crate::proofs::abroad::OthersEvents::frames_abroad))]
pub fn others_leave_the_kernel()
    ensures rests { (header : Header) (outside : Outside) (h : ℕ) (k : Parts) (ids next : Ids) (events past : List Event) → Sound header past
        → Rests header h k ids past → EachIn (IsAbroad header outside h) events past → IsCommon header next (events ++ past)
        → Rests header h k next (events ++ past) }
    ensures queue { (header : Header) (outside : Outside) (h : ℕ) (k : Parts) (ids : Ids) (events past : List Event) → Sound header past
        → Rests header h k ids past → EachIn (IsAbroad header outside h) events past → HasQueue header h k past → HasQueue header h k (events ++ past) }
    ensures prompt { (header : Header) (outside : Outside) (h : ℕ) (k : Parts) (ids : Ids) (events past : List Event) → Sound header past
        → Rests header h k ids past → EachIn (IsAbroad header outside h) events past → PromptAt header h past → PromptAt header h (events ++ past) }
    ensures frames { (header : Header) (outside : Outside) (h : ℕ) (events past : List Event) → EachIn (IsAbroad header outside h) events past
        → Suffice header h past → MomentsIn (Suffice header h) events past }
{}
