//! What the verdict says of a world.
ghost use Rattle.std.specs.Prelude.{List};
ghost use Rattle.usb_world.specs.Worlds.{World};
ghost use Rattle.usb_judge.specs.declared.judgement.Judgement.{Judgement};
ghost use Rattle.usb_judge.specs.declared.listed.ListedPort.{ListedPort};
ghost use Rattle.usb_judge.specs.declared.plugged.PluggedDevice.{PluggedDevice};
ghost use Rattle.usb_judge.specs.Scenes.{scene_in};
ghost use Rattle.usb_judge.specs.Judgements.{Judges};
ghost use Rattle.usb_judge.specs.Worlds.{ArePlugged, scene_of};

/// Where the devices are those that are plugged in a world, the judgements are those of that world:
/// there is none exactly if the listing is right in it.
///
/// It does nothing; what it ensures is for proofs to cite.
pub fn judged_world()
    ensures { (plugged : List PluggedDevice) (w : World) → ArePlugged plugged w
        → (listing : List ListedPort) (judgements : List Judgement)
        → Judges (scene_in plugged) listing judgements
        → Judges (scene_of w) listing judgements }
{}
