// What holds of the disks of a session, whatever code reads them.
ghost use Rattle.recovery.specs.Images.{StoredImages, RemovedImages, TakenImages};
ghost use Rattle.recovery.specs.Joint.{EachTripleOpens, EachWorldOpens};
ghost use Rattle.recovery.specs.Readings.{LowTells, ReceiverTells};
ghost use Rattle.recovery.specs.Refills.{OpeningsRefill};

/// Disks that crashes may leave of one lawful world, each with its unfinished call kept or not, are
/// refused for nothing, their counts are the world's, and the receiver's agrees with low's.
pub fn each_triple_opens()
    ensures { EachTripleOpens }
{}

/// Disks that stand for one lawful world are refused for nothing, and the receiver's agrees with
/// low's: so what a pump hands back opens again.
pub fn each_world_opens()
    ensures { EachWorldOpens }
{}

/// The messages that an opening finds on a disk are those that the disk stands for.
pub fn disks_tell_messages()
    ensures low { LowTells }
    ensures receiver { ReceiverTells }
{}

/// What a crash leaves of low's disk in a store stands for the world with the message or without.
pub fn stored_images()
    ensures { StoredImages }
{}

/// What a crash leaves of high's disk in a removal stands for the world with it done or not.
pub fn removed_images()
    ensures { RemovedImages }
{}

/// What a crash leaves of the receiver's disk in a taking stands for the world with the message or
/// without.
pub fn taken_images()
    ensures { TakenImages }
{}

/// What an opening deals out is what the opened world holds.
pub fn openings_refill()
    ensures { OpeningsRefill }
{}
