ghost use Rattle.ug_disk.specs.Laws.{SyncLeavesOne, WriteAddsImages, WriteEndsAsItGoes, WriteIsTorn, WriteLoosens, WriteStaysReal};

/// While bytes are being written to a synced slot, a crash may leave any bytes in their place and
/// everything else unchanged, and no other image.
pub fn write_is_torn()
    ensures { WriteIsTorn }
{}

/// After a sync a crash leaves what a read returns, and nothing else.
pub fn sync_leaves_one()
    ensures { SyncLeavesOne }
{}

/// A write removes no image that a crash may leave. After the write a crash may leave what it may
/// leave during the write, and a read returns one of these images.
pub fn writes_add_images()
    ensures adds { WriteAddsImages }
    ensures ends { WriteEndsAsItGoes }
    ensures real { WriteStaysReal }
    ensures loose { WriteLoosens }
{}
