// The calls that build a preset, change it and tell what it holds. Every preset passes the questions of `new`.
ghost use Rattle.std.specs.Prelude.{◌≡◌};
ghost use Rattle.preset.specs.Questions.{asked, plain};

use crate::Preset;
use refusal::Refusal;

impl Preset {
    // The one way to build: first the window is asked, then the loss.
    pub fn new(window: u32, loss: u32) -> Result<Preset, Refusal>
        ensures { plain result ≡ asked window loss }
    {
        if !(1..=1_048_576).contains(&window) {
            return Err(Refusal::WindowOutOfRange);
        }
        if !(1..=999).contains(&loss) {
            return Err(Refusal::LossOutOfRange);
        }
        Ok(Preset { window, loss })
    }

    // The same loss over another window.
    pub fn with_window(self, window: u32) -> Result<Preset, Refusal>
        ensures { plain result ≡ asked window self.loss }
    {
        Preset::new(window, self.loss)
    }

    // The same window at another loss.
    pub fn with_loss(self, loss: u32) -> Result<Preset, Refusal>
        ensures { plain result ≡ asked self.window loss }
    {
        Preset::new(self.window, loss)
    }

    pub fn window(&self) -> u32
        ensures { result ≡ self.now.window }
    {
        self.window
    }

    pub fn loss(&self) -> u32
        ensures { result ≡ self.now.loss }
    {
        self.loss
    }
}
