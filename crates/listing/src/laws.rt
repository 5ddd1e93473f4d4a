// What holds of all exposures and listings.
ghost use Rattle.listing.specs.Laws.{OneExposure, ExposuresBounded, OneListing};

// An account has one exposure, of at most 1000, and a catalogue has one listing.
pub fn laws_stand()
    ensures exposure { OneExposure }
    ensures bound { ExposuresBounded }
    ensures listing { OneListing }
{}
