//! What a monitor's verdicts mean.
ghost use Rattle.monitor.specs.Monitoring.{MonitorDecides};

/// After any calls the obligation is the rule's progression through the accepted readings, the deciding tick is the one whose
/// step first made it constant, and a verdict is the truth about every endless run that begins with the accepted readings.
pub fn monitor_decides()
    ensures { MonitorDecides }
{}
